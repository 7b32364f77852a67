//! Which words may stand where something is expected.

ghost use Rattle.std.specs.Prelude.{◌≡◌, ◌||◌, is_some};
ghost use Rattle.std.specs.Result.{result_ok};
ghost use Rattle.am_names.specs.{path_read};
ghost use Rattle.am_script.specs.EventWords.{pipe_read, change_read, failure_read, trigger_name_read, packet_read};
ghost use Rattle.am_diagnosis.specs.Fits.{fits, may_end, is_limit, is_waits, is_event_word, is_part_word};
ghost use Rattle.am_script.specs.Numbers.{u32_read};

use crate::expected::Expected;
use crate::map_words::{is_entry_word, is_location};
use crate::master_words::{is_map, is_option, is_seconds};
use crate::number::{is_u32, is_u64, read_u8, read_u32};
use crate::parameters::{parameters, part_parameters};
use crate::word::{is_either, is_word};
use am_names::{AbsPath, FailNo, Name};
use hex::decode_to_slice;

/// Whether the word may stand where this is expected, in the line of an event, of a part of a
/// head, of a map or of a master map.
pub(crate) fn fits(expected: Expected, word: &[u8]) -> bool
    ensures { result ≡ fits expected word.now }
{
    match expected {
        Expected::Event => is_event_word(word),
        Expected::Part => is_part_word(word),
        Expected::Walker
        | Expected::Namespace
        | Expected::FileSystem
        | Expected::Token
        | Expected::Job
        | Expected::Attachment
        | Expected::Seconds => is_u32(word),
        Expected::Moment | Expected::Lasting => is_u64(word),
        Expected::Path => is_path(word),
        Expected::Pipe => is_pipe(word),
        Expected::Expiry => is_either(word, b"idle", b"immediate"),
        Expected::Change => is_change(word),
        Expected::Reduced => is_word(word, b"reduced"),
        Expected::Packet => is_packet(word),
        Expected::Outcome => is_either(word, b"ok", b"fail"),
        Expected::Failure => is_failure(word),
        Expected::Status => is_either(word, b"ready", b"fail"),
        Expected::Name => is_trigger_name(word),
        Expected::Limit => is_limit(word),
        Expected::Waits => is_waits(word),
        Expected::MapName => true,
        Expected::Map => is_map(word),
        Expected::MasterOption => is_option(word),
        Expected::Timeout => is_seconds(word),
        Expected::Entry => is_entry_word(word),
        Expected::Location => is_location(word),
        _ => false,
    }
}

/// Whether the line may end where this is expected.
pub(crate) fn may_end(expected: Expected) -> bool
    ensures { result ≡ may_end expected }
{
    match expected {
        Expected::Reduced
        | Expected::Packet
        | Expected::Failure
        | Expected::MasterOption
        | Expected::End => true,
        _ => false,
    }
}

fn is_event_word(word: &[u8]) -> bool
    ensures { result ≡ is_event_word word.now }
{
    parameters(word).is_some()
}

fn is_part_word(word: &[u8]) -> bool
    ensures { result ≡ is_part_word word.now }
{
    part_parameters(word).is_some()
}

fn is_path(word: &[u8]) -> bool
    ensures { result ≡ is_some (result_ok (path_read word.now)) }
{
    AbsPath::read(word).ok().is_some()
}

fn is_pipe(word: &[u8]) -> bool
    ensures { result ≡ is_some (pipe_read word.now) }
{
    is_either(word, b"room", b"full") || is_word(word, b"gone")
}

fn is_change(word: &[u8]) -> bool
    ensures { result ≡ is_some (change_read word.now) }
{
    is_either(word, b"shared", b"slave") || is_either(word, b"private", b"unbindable")
}

/// Whether the word is the 608 hex digits of a packet.
fn is_packet(word: &[u8]) -> bool
    ensures { result ≡ is_some (packet_read word.now) }
{
    let mut bytes = [0; 304];
    decode_to_slice(word, &mut bytes).ok().is_some()
}

fn is_failure(word: &[u8]) -> bool
    ensures { result ≡ is_some (failure_read word.now) }
{
    match read_u8(word) {
        Some(number) => FailNo::read(number).ok().is_some(),
        None => false,
    }
}

fn is_trigger_name(word: &[u8]) -> bool
    ensures { result ≡ is_some (trigger_name_read word.now) }
{
    is_word(word, b"-") || Name::read(word).ok().is_some()
}

/// Whether the word is a number of at least 1.
fn is_limit(word: &[u8]) -> bool
    ensures { result ≡ is_limit (u32_read word.now) }
{
    match read_u32(word) {
        Some(number) => 1 <= number,
        None => false,
    }
}

/// Whether the word is a number from 1 to 65,536.
fn is_waits(word: &[u8]) -> bool
    ensures { result ≡ is_waits (u32_read word.now) }
{
    match read_u32(word) {
        Some(number) => 1 <= number && number <= 65_536,
        None => false,
    }
}
