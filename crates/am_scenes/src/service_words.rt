//! The words by which a scene says how the daemon serves.

ghost use Rattle.std.specs.Prelude.{◌≡◌, option_map, IfOk};
ghost use Rattle.am_lines.specs.{words_of};
ghost use Rattle.am_script.specs.EventWords.{failure_read};
ghost use Rattle.am_scenes.specs.ServiceWords.{fail_read, failures_read, results_of, service_read};
ghost use Rattle.am_scenes.specs.View.{items_in, results_in};

use crate::line::is_word;
use crate::number::read_u8;
use am_explore::Service;
use am_lines::next_word;
use am_names::FailNo;
use std::alloc::{AllocError, Global};

/// The failure of this number, from 1 to 9, as a scene writes it.
pub fn read_failure(digits: &[u8]) -> Option<FailNo>
    ensures { result ≡ failure_read digits.now }
{
    FailNo::read(read_u8(digits)?).ok()
}

/// The failure of `fail N`.
fn read_fail(word: &[u8], digits: &[u8]) -> Option<FailNo>
    ensures { result ≡ fail_read word.now digits.now }
{
    if !is_word(word, b"fail") {
        return None;
    }
    read_failure(digits)
}

/// How acts come out: without a failure, or with one of these, each `fail N`.
fn read_results(alloc: Global, words: &[u8]) -> Result<Option<Vec<Option<FailNo>>>, AllocError>
    ensures { IfOk result (λ results. items_in results
        ≡ option_map results_of (failures_read (words_of words.now))) }
{
    let mut results = Vec::new(alloc);
    results.push(None)?;
    let mut rest = words;
    while let Some((word, digits)) = next_word(rest) {
        let Some((digits, behind)) = next_word(digits) else {
            return Ok(None);
        };
        let Some(failure) = read_fail(word, digits) else {
            return Ok(None);
        };
        results.push(Some(failure))?;
        rest = behind;
    }
    Ok(Some(results))
}

/// How the daemon serves, by the words behind `serve`.
pub(crate) fn read_service(alloc: Global, words: &[u8]) -> Result<Option<Service>, AllocError>
    ensures { IfOk result (λ service. results_in service ≡ service_read (words_of words.now)) }
{
    let Some((word, words)) = next_word(words) else {
        return Ok(None);
    };
    if !is_word(word, b"daemon") {
        return Ok(None);
    }
    match read_results(alloc, words)? {
        Some(results) => Ok(Some(Service { results })),
        None => Ok(None),
    }
}
