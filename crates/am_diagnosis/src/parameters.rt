//! What stands behind the first word of a line.

ghost use Rattle.std.specs.Prelude.{◌≡◌};
ghost use Rattle.std.specs.Option.{option_copied};
ghost use Rattle.am_diagnosis.specs.Parameters.{parameters, part_parameters};

use crate::expected::Expected;
use crate::word::is_word;

/// The parameters of an event by its word: an arm for each word of the table of events
/// (docs/FORMATS.md, "Events").
#[tactic(auto, unfolding(crate::specs::Parameters::parameters))]
pub(crate) fn parameters(word: &[u8]) -> Option<&'static [Expected]>
    ensures { option_copied result ≡ parameters word.now }
{
    match word {
        _ if is_word(word, b"attach") => Some(&[Expected::Path]),
        _ if is_word(word, b"mount") => Some(&[Expected::Namespace, Expected::Path]),
        _ if is_word(word, b"bind") => Some(&[Expected::Namespace, Expected::Path, Expected::Path]),
        _ if is_word(word, b"umount") => Some(&[Expected::Namespace, Expected::Path]),
        _ if is_word(word, b"change") => Some(&[
            Expected::Namespace,
            Expected::Path,
            Expected::Change,
        ]),
        _ if is_word(word, b"kind") => Some(&[Expected::Namespace, Expected::Path]),
        _ if is_word(word, b"nscopy") => Some(&[Expected::Namespace, Expected::Reduced]),
        _ if is_word(word, b"nsdrop") => Some(&[Expected::Namespace]),
        _ if is_word(word, b"walk") => Some(&[
            Expected::Walker,
            Expected::Namespace,
            Expected::Path,
            Expected::Moment,
            Expected::Pipe,
        ]),
        _ if is_word(word, b"resume") => Some(&[
            Expected::Walker,
            Expected::Moment,
            Expected::Pipe,
        ]),
        _ if is_word(word, b"leave") => Some(&[Expected::Walker]),
        _ if is_word(word, b"expire") => Some(&[
            Expected::Walker,
            Expected::FileSystem,
            Expected::Moment,
            Expected::Expiry,
            Expected::Pipe,
        ]),
        _ if is_word(word, b"deliver") => Some(&[Expected::Token, Expected::Packet]),
        _ if is_word(word, b"act") => Some(&[Expected::Job, Expected::Outcome, Expected::Failure]),
        _ if is_word(word, b"repeat") => Some(&[
            Expected::Attachment,
            Expected::Token,
            Expected::Status,
        ]),
        _ if is_word(word, b"catatonic") => Some(&[Expected::Attachment, Expected::FileSystem]),
        _ if is_word(word, b"admincat") => Some(&[Expected::FileSystem]),
        _ if is_word(word, b"timeout") => Some(&[
            Expected::Attachment,
            Expected::FileSystem,
            Expected::Seconds,
        ]),
        _ if is_word(word, b"die") => Some(&[]),
        _ if is_word(word, b"reattach") => Some(&[Expected::FileSystem]),
        _ if is_word(word, b"record") => Some(&[Expected::FileSystem, Expected::Name]),
        _ => None,
    }
}

/// The parameters of a part of the head by its first word.
#[tactic(auto, unfolding(crate::specs::Parameters::part_parameters))]
pub(crate) fn part_parameters(word: &[u8]) -> Option<&'static [Expected]>
    ensures { option_copied result ≡ part_parameters word.now }
{
    match word {
        _ if is_word(word, b"limits") => Some(&[Expected::Limit, Expected::Waits, Expected::Limit]),
        _ if is_word(word, b"negative") => Some(&[Expected::Lasting]),
        _ if is_word(word, b"master") => Some(&[]),
        _ if is_word(word, b"map") => Some(&[Expected::MapName]),
        _ if is_word(word, b"events") => Some(&[]),
        _ => None,
    }
}
