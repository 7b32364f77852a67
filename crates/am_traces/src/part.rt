//! The parts of a line.

ghost use Rattle.std.specs.Prelude.{◌≡◌, ◌^◌, ◌≤◌, length, position, bytes_eq, IfNone, IfSome, false, true};
ghost use Rattle.am_script.specs.{is_numeral, number_read};
ghost use Rattle.am_traces.specs.Parts.{is_no_digit, digits_in, numeral_cut, number_cut, status_end, name_end, key_end, trigger_end, type_cut, packet_name_end, packet_end, mounting_cut, mounted_cut, unmounting_cut, entry_cut};

use crate::fault::{Expected, Miss};
use crate::rest::Rest;
use am_lines::are_digits;
use am_names::{FailNo, FsId, MountId, Name, Status, Token, Trigger};
use am_state::Record;
use am_wire::{Packet, PacketName, PacketType};
use std::str;

/// Where it goes on with something else than a digit.
fn digits_end(text: &[u8]) -> Option<usize>
    ensures { result ≡ position is_no_digit text.now }
{
    text.iter().position(|b| !(*b >= b'0' && *b <= b'9'))
}

/// How many digits it begins with.
fn digits_length(text: &[u8]) -> usize
    ensures length { result ≡ length (digits_in text.now) }
    ensures within { result ≤ length text.now }
{
    match digits_end(text) {
        Some(at) => at,
        None => text.len(),
    }
}

/// The text of a numeral.
fn numeral(digits: &[u8]) -> Option<&str>
    ensures none { IfNone result (is_numeral digits.now ≡ false) }
    ensures some { IfSome result (λ text. (is_numeral digits.now ≡ true)
        × (text.now ≡ digits.now)) }
{
    if !is_numeral(digits) {
        return None;
    }
    match str::from_utf8(digits) {
        Ok(text) => Some(text),
        Err(_) => None,
    }
}

fn is_numeral(digits: &[u8]) -> bool
    ensures { result ≡ is_numeral digits.now }
{
    let [first, others @ ..] = digits else {
        return false;
    };
    if !are_digits(digits) {
        return false;
    }
    *first != b'0' || others.is_empty()
}

fn read_u32(digits: &[u8]) -> Option<u32>
    ensures { result ≡ number_read (2 ^ 32) digits.now }
{
    numeral(digits)?.parse::<u32>().ok()
}

fn read_u64(digits: &[u8]) -> Option<u64>
    ensures { result ≡ number_read (2 ^ 64) digits.now }
{
    numeral(digits)?.parse::<u64>().ok()
}

/// A number of 32 bits.
#[tactic(auto, unfolding(crate::specs::Parts::numeral_cut))]
fn numeral32<'a>(text: &Rest<'a>, expected: Expected) -> Result<(u32, Rest<'a>), Miss>
    ensures { result ≡ numeral_cut (2 ^ 32) expected text.now }
{
    let bytes = text.as_bytes();
    let length = digits_length(bytes);
    match read_u32(&bytes[..length]) {
        Some(number) => Ok((number, Rest::of(&bytes[length..]))),
        None => Err(text.miss(expected)),
    }
}

/// A number of 64 bits.
#[tactic(auto, unfolding(crate::specs::Parts::numeral_cut))]
fn numeral64<'a>(text: &Rest<'a>, expected: Expected) -> Result<(u64, Rest<'a>), Miss>
    ensures { result ≡ numeral_cut (2 ^ 64) expected text.now }
{
    let bytes = text.as_bytes();
    let length = digits_length(bytes);
    match read_u64(&bytes[..length]) {
        Some(number) => Ok((number, Rest::of(&bytes[length..]))),
        None => Err(text.miss(expected)),
    }
}

/// A number of 32 bits behind these bytes.
#[tactic(auto, unfolding(crate::specs::Parts::number_cut))]
pub(crate) fn number32<'a>(
    text: &Rest<'a>,
    word: &[u8],
    expected: Expected,
) -> Result<(u32, Rest<'a>), Miss>
    ensures { result ≡ number_cut word.now (2 ^ 32) expected text.now }
{
    let rest = text.word(word, expected)?;
    numeral32(&rest, expected)
}

/// A number of 64 bits behind these bytes.
#[tactic(auto, unfolding(crate::specs::Parts::number_cut))]
pub(crate) fn number64<'a>(
    text: &Rest<'a>,
    word: &[u8],
    expected: Expected,
) -> Result<(u64, Rest<'a>), Miss>
    ensures { result ≡ number_cut word.now (2 ^ 64) expected text.now }
{
    let rest = text.word(word, expected)?;
    numeral64(&rest, expected)
}

fn is_text(text: &Rest<'_>, word: &[u8]) -> bool
    ensures { result ≡ bytes_eq text.now word.now }
{
    text.as_bytes() == word
}

/// How a notification is acknowledged.
#[tactic(auto, unfolding(crate::specs::Parts::status_end))]
pub(crate) fn status(text: &Rest<'_>) -> Result<Status, Miss>
    ensures { result ≡ status_end text.now }
{
    if is_text(text, b" ready") {
        return Ok(Status::Ready);
    }
    if is_text(text, b" fail") {
        return Ok(Status::Fail(FailNo::ENOENT));
    }
    if is_text(text, b" fail 2") {
        return Ok(Status::Fail(FailNo::EPERM));
    }
    if is_text(text, b" fail 3") {
        return Ok(Status::Fail(FailNo::EBUSY));
    }
    if is_text(text, b" fail 4") {
        return Ok(Status::Fail(FailNo::EEXIST));
    }
    if is_text(text, b" fail 5") {
        return Ok(Status::Fail(FailNo::EINVAL));
    }
    if is_text(text, b" fail 6") {
        return Ok(Status::Fail(FailNo::EAGAIN));
    }
    if is_text(text, b" fail 7") {
        return Ok(Status::Fail(FailNo::ELOOP));
    }
    if is_text(text, b" fail 8") {
        return Ok(Status::Fail(FailNo::ENAMETOOLONG));
    }
    if is_text(text, b" fail 9") {
        return Ok(Status::Fail(FailNo::ENOSPC));
    }
    Err(text.miss(Expected::Status))
}

/// The name of a trigger.
#[tactic(auto, unfolding(crate::specs::Parts::name_end))]
fn name(text: &Rest<'_>) -> Result<Option<Name>, Miss>
    ensures { result ≡ name_end text.now }
{
    let rest = text.word(b" name ", Expected::Key)?;
    match Name::read(rest.as_bytes()) {
        Ok(name) => Ok(Some(name)),
        Err(_) => Err(rest.miss(Expected::Key)),
    }
}

/// What a trigger is for.
#[tactic(auto, unfolding(crate::specs::Parts::key_end))]
fn key(text: &Rest<'_>) -> Result<Option<Name>, Miss>
    ensures { result ≡ key_end text.now }
{
    if is_text(text, b" direct") {
        return Ok(None);
    }
    name(text)
}

/// A trigger.
#[tactic(auto, unfolding(crate::specs::Parts::trigger_end))]
pub(crate) fn trigger(text: &Rest<'_>) -> Result<Trigger, Miss>
    ensures { result ≡ trigger_end text.now }
{
    let (fs, rest) = number32(text, b" fs ", Expected::Fs)?;
    let name = key(&rest)?;
    Ok(Trigger { fs: FsId(fs), name })
}

/// What a packet asks for.
#[tactic(auto, unfolding(crate::specs::Parts::type_cut))]
fn packet_type<'a>(text: &Rest<'a>) -> Result<(PacketType, Rest<'a>), Miss>
    ensures { result ≡ type_cut text.now }
{
    if let Some(rest) = text.behind(b" missing-indirect") {
        return Ok((PacketType::MissingIndirect, rest));
    }
    if let Some(rest) = text.behind(b" expire-indirect") {
        return Ok((PacketType::ExpireIndirect, rest));
    }
    if let Some(rest) = text.behind(b" missing-direct") {
        return Ok((PacketType::MissingDirect, rest));
    }
    if let Some(rest) = text.behind(b" expire-direct") {
        return Ok((PacketType::ExpireDirect, rest));
    }
    Err(text.miss(Expected::PacketType))
}

/// The name in a packet.
#[tactic(auto, unfolding(crate::specs::Parts::packet_name_end))]
fn packet_name(text: &Rest<'_>) -> Result<PacketName, Miss>
    ensures { result ≡ packet_name_end text.now }
{
    let name = text.word(b" name ", Expected::PacketName)?;
    let bytes = name.as_bytes();
    if bytes.len() <= 255 {
        return Ok(PacketName::new(bytes));
    }
    Err(name.miss(Expected::PacketName))
}

/// The packet of this token.
#[tactic(auto, unfolding(crate::specs::Parts::packet_end))]
pub(crate) fn packet(token: Token, text: &Rest<'_>) -> Result<Packet, Miss>
    ensures { result ≡ packet_end token text.now }
{
    let (kind, rest) = packet_type(text)?;
    let (dev, rest) = number32(&rest, b" dev ", Expected::PacketNumber)?;
    let (ino, rest) = number64(&rest, b" ino ", Expected::PacketNumber)?;
    let (uid, rest) = number32(&rest, b" uid ", Expected::PacketNumber)?;
    let (gid, rest) = number32(&rest, b" gid ", Expected::PacketNumber)?;
    let (pid, rest) = number32(&rest, b" pid ", Expected::PacketNumber)?;
    let (tgid, rest) = number32(&rest, b" tgid ", Expected::PacketNumber)?;
    let name = packet_name(&rest)?;
    Ok(Packet {
        kind,
        token,
        dev: FsId(dev),
        ino,
        uid,
        gid,
        pid,
        tgid,
        name,
    })
}

/// A mount that is made for a token.
#[tactic(auto, unfolding(crate::specs::Parts::mounting_cut))]
fn mounting<'a>(text: &Rest<'a>) -> Result<(Option<Record>, Rest<'a>), Miss>
    ensures { result ≡ mounting_cut text.now }
{
    let (token, rest) = numeral32(text, Expected::Token)?;
    Ok((
        Some(Record::Mounting {
            token: Token(token),
        }),
        rest,
    ))
}

/// A mount that was made.
#[tactic(auto, unfolding(crate::specs::Parts::mounted_cut))]
fn mounted<'a>(text: &Rest<'a>) -> Result<(Option<Record>, Rest<'a>), Miss>
    ensures { result ≡ mounted_cut text.now }
{
    let (mount, rest) = numeral64(text, Expected::Mount)?;
    Ok((
        Some(Record::Mounted {
            mount: MountId(mount),
        }),
        rest,
    ))
}

/// A mount that is unmounted for a token.
#[tactic(auto, unfolding(crate::specs::Parts::unmounting_cut))]
fn unmounting<'a>(text: &Rest<'a>) -> Result<(Option<Record>, Rest<'a>), Miss>
    ensures { result ≡ unmounting_cut text.now }
{
    let (token, rest) = numeral32(text, Expected::Token)?;
    let (mount, rest) = number64(&rest, b" ", Expected::Mount)?;
    Ok((
        Some(Record::Unmounting {
            token: Token(token),
            mount: MountId(mount),
        }),
        rest,
    ))
}

/// What the book says of a trigger.
#[tactic(auto, unfolding(crate::specs::Parts::entry_cut))]
pub(crate) fn entry<'a>(text: &Rest<'a>) -> Result<(Option<Record>, Rest<'a>), Miss>
    ensures { result ≡ entry_cut text.now }
{
    if let Some(rest) = text.behind(b" none") {
        return Ok((None, rest));
    }
    if let Some(rest) = text.behind(b" mounting ") {
        return mounting(&rest);
    }
    if let Some(rest) = text.behind(b" mounted ") {
        return mounted(&rest);
    }
    if let Some(rest) = text.behind(b" unmounting ") {
        return unmounting(&rest);
    }
    Err(text.miss(Expected::Entry))
}
