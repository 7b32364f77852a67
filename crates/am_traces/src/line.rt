//! The line of an observation.

ghost use Rattle.std.specs.Prelude.{◌≡◌, length, Ok};
ghost use Rattle.am_traces.specs.Observations.{packet_parts, queued_read, delivered_read, waits_read, answered_read, catatonic_read, released_read, passed_read, entered_read, left_read, mounts_in, mounted_read, unmounted_read, recorded_read, reattached_read, died_read, read_behind, text_read, line_read};
ghost use Rattle.am_traces.specs.Parts.{trigger_end};
ghost use Rattle.am_traces.specs.Read.{ReadAs};

use crate::fault::{Expected, Miss};
use crate::part::{entry, number32, number64, packet, status, trigger};
use crate::rest::Rest;
use crate::word::{ObsWord, first_word_length, read_word};
use am_names::{Attach, FsId, MountId, MountIds, Name, Token, Trigger, WalkerId};
use am_state::{KeptPacket, KeptTrigger, Obs};
use am_wire::Packet;
use std::alloc::{AllocError, AllocFailed, Global};

/// Why a line wasn't read.
#[derive(Clone, Copy)]
pub(crate) enum Stop {
    Missed { miss: Miss },
    NoMemory,
}

impl From<Miss> for Stop {
    ghost use Rattle.am_traces.specs.declared.line.Stop.TheVariants.{Missed};

    ghost from_gives = { λ miss stop. stop ≡ Missed miss };

    fn from(miss: Miss) -> Stop {
        Stop::Missed { miss }
    }
}

impl From<AllocError> for Stop {
    ghost use Rattle.am_traces.specs.declared.line.Stop.TheVariants.{NoMemory};

    ghost from_gives = { λ _ stop. stop ≡ NoMemory };

    fn from(_error: AllocError) -> Stop {
        Stop::NoMemory
    }
}

impl<T: Drop> From<AllocFailed<T>> for Stop {
    ghost use Rattle.am_traces.specs.declared.line.Stop.TheVariants.{NoMemory};

    ghost from_gives = { λ _ stop. stop ≡ NoMemory };

    fn from(_error: AllocFailed<T>) -> Stop {
        Stop::NoMemory
    }
}

/// A token, an attachment and a packet.
#[tactic(auto, unfolding(crate::specs::Observations::packet_parts))]
fn packet_parts(text: &Rest<'_>) -> Result<(Token, Attach, Packet), Miss>
    ensures { result ≡ packet_parts text.now }
{
    let (token, rest) = number32(text, b" ", Expected::Token)?;
    let (attach, rest) = number32(&rest, b" attach ", Expected::Attach)?;
    let packet = packet(Token(token), &rest)?;
    Ok((Token(token), Attach(attach), packet))
}

#[tactic(auto, unfolding(crate::specs::Observations::queued_read, crate::specs::Observations::packet_parts))]
fn read_queued(alloc: Global, text: &Rest<'_>) -> Result<Obs, Stop>
    ensures { ReadAs (queued_read text.now) result }
{
    let (token, attach, packet) = packet_parts(text)?;
    Ok(Obs::Queued {
        token,
        attach,
        packet: KeptPacket::new(alloc, &packet)?,
    })
}

#[tactic(auto, unfolding(crate::specs::Observations::delivered_read, crate::specs::Observations::packet_parts))]
fn read_delivered(alloc: Global, text: &Rest<'_>) -> Result<Obs, Stop>
    ensures { ReadAs (delivered_read text.now) result }
{
    let (token, attach, packet) = packet_parts(text)?;
    Ok(Obs::Delivered {
        token,
        attach,
        packet: KeptPacket::new(alloc, &packet)?,
    })
}

#[tactic(auto, unfolding(crate::specs::Observations::waits_read))]
fn read_waits(text: &Rest<'_>) -> Result<Obs, Miss>
    ensures { result ≡ waits_read text.now }
{
    let (walker, rest) = number32(text, b" ", Expected::Number)?;
    let (token, rest) = number32(&rest, b" token ", Expected::Token)?;
    rest.end()?;
    Ok(Obs::Waits {
        walker: WalkerId(walker),
        token: Token(token),
    })
}

#[tactic(auto, unfolding(crate::specs::Observations::answered_read))]
fn read_answered(text: &Rest<'_>) -> Result<Obs, Miss>
    ensures { result ≡ answered_read text.now }
{
    let (token, rest) = number32(text, b" ", Expected::Token)?;
    Ok(Obs::Answered {
        token: Token(token),
        status: status(&rest)?,
    })
}

#[tactic(auto, unfolding(crate::specs::Observations::catatonic_read))]
fn read_catatonic(text: &Rest<'_>) -> Result<Obs, Miss>
    ensures { result ≡ catatonic_read text.now }
{
    let (fs, rest) = number32(text, b" ", Expected::Fs)?;
    rest.end()?;
    Ok(Obs::Catatonic { fs: FsId(fs) })
}

#[tactic(auto, unfolding(crate::specs::Observations::released_read))]
fn read_released(text: &Rest<'_>) -> Result<Obs, Miss>
    ensures { result ≡ released_read text.now }
{
    let (walker, rest) = number32(text, b" ", Expected::Number)?;
    let (token, rest) = number32(&rest, b" token ", Expected::Token)?;
    Ok(Obs::Released {
        walker: WalkerId(walker),
        token: Token(token),
        status: status(&rest)?,
    })
}

/// A trigger, to the end of the line.
fn kept_trigger(alloc: Global, text: &Rest<'_>) -> Result<KeptTrigger, Stop>
    ensures { ReadAs (trigger_end text.now) result }
{
    match trigger(text) {
        Ok(trigger) => keep(alloc, &trigger),
        Err(miss) => Err(Stop::Missed { miss }),
    }
}

fn keep(alloc: Global, trigger: &Trigger) -> Result<KeptTrigger, Stop>
    ensures { ReadAs (Ok trigger.now) result }
{
    let _name: Option<Name> = trigger.name;
    match KeptTrigger::new(alloc, trigger) {
        Ok(kept) => Ok(kept),
        Err(_) => Err(Stop::NoMemory),
    }
}

#[tactic(auto, unfolding(crate::specs::Observations::passed_read))]
fn read_passed(alloc: Global, text: &Rest<'_>) -> Result<Obs, Stop>
    ensures { ReadAs (passed_read text.now) result }
{
    let (walker, rest) = number32(text, b" ", Expected::Number)?;
    Ok(Obs::Passed {
        walker: WalkerId(walker),
        trigger: kept_trigger(alloc, &rest)?,
    })
}

#[tactic(auto, unfolding(crate::specs::Observations::entered_read))]
fn read_entered(text: &Rest<'_>) -> Result<Obs, Miss>
    ensures { result ≡ entered_read text.now }
{
    let (walker, rest) = number32(text, b" ", Expected::Number)?;
    let (mount, rest) = number64(&rest, b" mount ", Expected::Mount)?;
    rest.end()?;
    Ok(Obs::Entered {
        walker: WalkerId(walker),
        mount: MountId(mount),
    })
}

#[tactic(auto, unfolding(crate::specs::Observations::left_read))]
fn read_left(text: &Rest<'_>) -> Result<Obs, Miss>
    ensures { result ≡ left_read text.now }
{
    let (walker, rest) = number32(text, b" ", Expected::Number)?;
    let (mount, rest) = number64(&rest, b" mount ", Expected::Mount)?;
    rest.end()?;
    Ok(Obs::Left {
        walker: WalkerId(walker),
        mount: MountId(mount),
    })
}

/// Mounts, to the end of the line.
fn read_mounts(alloc: Global, text: &Rest<'_>) -> Result<MountIds, Stop>
    ensures { ReadAs (mounts_in (length text.now) text.now) result }
{
    let mut numbers = Vec::new(alloc);
    let mut rest = Rest::of(text.as_bytes());
    while !rest.is_empty() {
        let (mount, behind) = number64(&rest, b" ", Expected::Mount)?;
        numbers.push(MountId(mount))?;
        rest = behind;
    }
    Ok(MountIds::of(numbers))
}

#[tactic(auto, unfolding(crate::specs::Observations::mounted_read))]
fn read_mounted(alloc: Global, text: &Rest<'_>) -> Result<Obs, Stop>
    ensures { ReadAs (mounted_read text.now) result }
{
    Ok(Obs::Mounted {
        mounts: read_mounts(alloc, text)?,
    })
}

#[tactic(auto, unfolding(crate::specs::Observations::unmounted_read))]
fn read_unmounted(alloc: Global, text: &Rest<'_>) -> Result<Obs, Stop>
    ensures { ReadAs (unmounted_read text.now) result }
{
    Ok(Obs::Unmounted {
        mounts: read_mounts(alloc, text)?,
    })
}

#[tactic(auto, unfolding(crate::specs::Observations::recorded_read))]
fn read_recorded(alloc: Global, text: &Rest<'_>) -> Result<Obs, Stop>
    ensures { ReadAs (recorded_read text.now) result }
{
    let (entry, rest) = entry(text)?;
    Ok(Obs::Recorded {
        trigger: kept_trigger(alloc, &rest)?,
        entry,
    })
}

#[tactic(auto, unfolding(crate::specs::Observations::reattached_read))]
fn read_reattached(text: &Rest<'_>) -> Result<Obs, Miss>
    ensures { result ≡ reattached_read text.now }
{
    let (fs, rest) = number32(text, b" ", Expected::Fs)?;
    let (attach, rest) = number32(&rest, b" attach ", Expected::Attach)?;
    rest.end()?;
    Ok(Obs::Reattached {
        fs: FsId(fs),
        attach: Attach(attach),
    })
}

#[tactic(auto, unfolding(crate::specs::Observations::died_read))]
fn read_died(text: &Rest<'_>) -> Result<Obs, Miss>
    ensures { result ≡ died_read text.now }
{
    text.end()?;
    Ok(Obs::Died)
}

/// An observation that takes no memory, or its miss.
fn read_plain(read: Result<Obs, Miss>) -> Result<Obs, Stop>
    ensures { ReadAs read result }
{
    match read {
        Ok(obs) => Ok(obs),
        Err(miss) => Err(Stop::Missed { miss }),
    }
}

/// The observation with this first word.
#[tactic(auto, unfolding(crate::specs::Observations::read_behind))]
fn read_behind(alloc: Global, word: ObsWord, text: &Rest<'_>) -> Result<Obs, Stop>
    ensures { ReadAs (read_behind word text.now) result }
{
    match word {
        ObsWord::Queued => read_queued(alloc, text),
        ObsWord::Waits => read_plain(read_waits(text)),
        ObsWord::Answered => read_plain(read_answered(text)),
        ObsWord::Catatonic => read_plain(read_catatonic(text)),
        ObsWord::Released => read_plain(read_released(text)),
        ObsWord::Passed => read_passed(alloc, text),
        ObsWord::Entered => read_plain(read_entered(text)),
        ObsWord::Left => read_plain(read_left(text)),
        ObsWord::Mounted => read_mounted(alloc, text),
        ObsWord::Unmounted => read_unmounted(alloc, text),
        ObsWord::Delivered => read_delivered(alloc, text),
        ObsWord::Recorded => read_recorded(alloc, text),
        ObsWord::Reattached => read_plain(read_reattached(text)),
        ObsWord::Died => read_plain(read_died(text)),
    }
}

/// The observation that a text is.
#[tactic(auto, unfolding(crate::specs::Observations::text_read))]
fn read_text(alloc: Global, text: &Rest<'_>) -> Result<Obs, Stop>
    ensures { ReadAs (text_read text.now) result }
{
    let bytes = text.as_bytes();
    let length = first_word_length(bytes);
    match read_word(&bytes[..length]) {
        Some(word) => read_behind(alloc, word, &Rest::of(&bytes[length..])),
        None => Err(Stop::Missed {
            miss: text.miss(Expected::Observation),
        }),
    }
}

/// The observation of an indented line.
#[tactic(auto, unfolding(crate::specs::Observations::line_read))]
pub(crate) fn read_line(alloc: Global, line: &[u8]) -> Result<Obs, Stop>
    ensures { ReadAs (line_read line.now) result }
{
    let text = Rest::of(line).word(b"  ", Expected::Observation)?;
    read_text(alloc, &text)
}
