//! The first word of an observation.

ghost use Rattle.std.specs.Prelude.{◌≡◌, ◌≤◌, length, position, bytes_eq};
ghost use Rattle.am_traces.specs.Observations.{is_space, first_word, word_read};

/// Which observation it is.
#[derive(Clone, Copy)]
pub(crate) enum ObsWord {
    Queued,
    Waits,
    Answered,
    Catatonic,
    Released,
    Passed,
    Entered,
    Left,
    Mounted,
    Unmounted,
    Delivered,
    Recorded,
    Reattached,
    Died,
}

/// Where the first blank is.
fn space_place(text: &[u8]) -> Option<usize>
    ensures { result ≡ position is_space text.now }
{
    text.iter().position(|b| *b == b' ')
}

/// How long the first word is.
pub(crate) fn first_word_length(text: &[u8]) -> usize
    ensures length { result ≡ length (first_word text.now) }
    ensures within { result ≤ length text.now }
{
    match space_place(text) {
        Some(at) => at,
        None => text.len(),
    }
}

fn is_word(word: &[u8], text: &[u8]) -> bool
    ensures { result ≡ bytes_eq word.now text.now }
{
    word == text
}

/// The first word of an observation, if it is one.
#[tactic(auto, unfolding(crate::specs::Observations::word_read))]
pub(crate) fn read_word(word: &[u8]) -> Option<ObsWord>
    ensures { result ≡ word_read word.now }
{
    if is_word(word, b"queued") {
        return Some(ObsWord::Queued);
    }
    if is_word(word, b"waits") {
        return Some(ObsWord::Waits);
    }
    if is_word(word, b"answered") {
        return Some(ObsWord::Answered);
    }
    if is_word(word, b"catatonic") {
        return Some(ObsWord::Catatonic);
    }
    if is_word(word, b"released") {
        return Some(ObsWord::Released);
    }
    if is_word(word, b"passed") {
        return Some(ObsWord::Passed);
    }
    if is_word(word, b"entered") {
        return Some(ObsWord::Entered);
    }
    if is_word(word, b"left") {
        return Some(ObsWord::Left);
    }
    if is_word(word, b"mounted") {
        return Some(ObsWord::Mounted);
    }
    if is_word(word, b"unmounted") {
        return Some(ObsWord::Unmounted);
    }
    if is_word(word, b"delivered") {
        return Some(ObsWord::Delivered);
    }
    if is_word(word, b"recorded") {
        return Some(ObsWord::Recorded);
    }
    if is_word(word, b"reattached") {
        return Some(ObsWord::Reattached);
    }
    if is_word(word, b"died") {
        return Some(ObsWord::Died);
    }
    None
}
