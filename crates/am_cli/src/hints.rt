//! What may be meant by words that are no command line.

ghost use Rattle.std.specs.Prelude.{◌≡◌, ◌≤◌, true, IfSome, map};
ghost use Rattle.am_cli.specs.Hints.{edits, fed, fed_by, feeds, is_file, IsHint, MayMean, mistaken};
ghost use Rattle.am_cli.specs.Topics.{name_of};

use crate::topics::{TOPICS, Topic, is_word, topic_named, topic_of, word_at};
use am_lines::begins_with;
use std::alloc::Global;
use strsim::levenshtein;

/// What may be meant.
#[derive(Clone, Copy, Debug, PartialEq, Eq)]
pub enum Hint {
    /// The command that has nearly this name.
    Near { topic: Topic },
    /// The command, which reads standard input and no file that is named.
    Input { topic: Topic },
}

/// Whether so many edits at most lead from one word to the other, as far as there is memory to see it.
fn is_near(alloc: Global, word: &str, name: &str, most: usize) -> bool
    ensures { result ≡ true → edits word.now name.now ≤ most }
{
    match levenshtein(alloc, word, name) {
        Ok(edits) => edits <= most,
        Err(_) => false,
    }
}

/// The first command to whose name so many edits at most lead.
fn near(alloc: Global, word: &str, most: usize) -> Option<Topic>
    ensures { IfSome result (λ topic. edits word.now (name_of topic) ≤ most) }
{
    for topic in &TOPICS {
        if is_near(alloc, word, topic.name(), most) {
            return Some(*topic);
        }
    }
    None
}

/// The command to whose name the fewest edits lead, if those are two at most.
fn nearest(alloc: Global, word: &str) -> Option<Topic>
    ensures { IfSome result (λ topic. edits word.now (name_of topic) ≤ 2) }
{
    if let Some(topic) = near(alloc, word, 1) {
        return Some(topic);
    }
    near(alloc, word, 2)
}

/// What may be meant by a word that should name a command.
fn meant(alloc: Global, word: &str) -> Option<Hint>
    ensures { MayMean word.now result }
{
    // A word that names one isn't what is wrong.
    if topic_named(word).is_some() {
        return None;
    }
    match nearest(alloc, word) {
        Some(topic) => Some(Hint::Near { topic }),
        None => None,
    }
}

/// The word that should name a command.
fn mistaken<'a>(words: &[&'a str]) -> &'a str
    ensures { result.now ≡ mistaken (map (λ word. word.now) words.now) }
{
    let name = word_at(words, 1);
    if is_word(name, "help") {
        return word_at(words, 2);
    }
    name
}

fn is_file(word: &str) -> bool
    ensures { result ≡ is_file word.now }
{
    if word.is_empty() {
        return false;
    }
    !begins_with(word.as_bytes(), b'-')
}

/// The command, where it reads standard input and the word behind it is no option.
fn fed_by(topic: Topic, word: &str) -> Option<Topic>
    ensures { result ≡ fed_by topic word.now }
{
    if !topic.reads_input() {
        return None;
    }
    if is_file(word) {
        return Some(topic);
    }
    None
}

fn feeds(found: Option<Topic>, word: &str) -> Option<Topic>
    ensures { result ≡ feeds found word.now }
{
    match found {
        Some(topic) => fed_by(topic, word),
        None => None,
    }
}

/// The command that reads standard input, where a file is named behind it.
fn fed(words: &[&str]) -> Option<Topic>
    ensures { result ≡ fed (map (λ word. word.now) words.now) }
{
    feeds(topic_of(words), word_at(words, 2))
}

/// What may be meant by words that are no command line.
pub(crate) fn hint_for(alloc: Global, words: &[&str]) -> Option<Hint>
    ensures { IsHint (map (λ word. word.now) words.now) result }
{
    match fed(words) {
        Some(topic) => Some(Hint::Input { topic }),
        None => meant(alloc, mistaken(words)),
    }
}
