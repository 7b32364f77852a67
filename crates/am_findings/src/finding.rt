//! What was found, as a text.

ghost use Rattle.std.specs.Prelude.{◌≡◌, ◌+◌, ◌++◌, decimal, OnOk};
ghost use Rattle.am_findings.specs.Texts.{asked_part, count_text, cut_text, finding_text, found_order_text, order_text, tally_text, unseen_text};

use am_explore::{Choice, Found, Seen, Tally};
use am_scenes::Asked;
use am_views::event_text::push_event;
use itoa::Buffer;
use std::alloc::AllocError;

/// Adds a number.
fn push_number(text: &mut Vec<u8>, number: u64) -> Result<(), AllocError>
    ensures { OnOk result (text.new.items ≡ text.old.items ++ decimal number) }
{
    let mut digits = Buffer::new();
    text.extend_from_slice(digits.format(number).as_bytes())?;
    Ok(())
}

/// Adds how many there are.
fn push_length(text: &mut Vec<u8>, length: usize) -> Result<(), AllocError>
    ensures { OnOk result (text.new.items ≡ text.old.items ++ decimal length) }
{
    let mut digits = Buffer::new();
    text.extend_from_slice(digits.format(length).as_bytes())?;
    Ok(())
}

/// Adds the sum of two lengths.
fn push_sum(text: &mut Vec<u8>, first: usize, second: usize) -> Result<(), AllocError>
    ensures { OnOk result (text.new.items ≡ text.old.items ++ decimal (first + second)) }
{
    let mut digits = Buffer::new();
    text.extend_from_slice(digits.format(first as u128 + second as u128).as_bytes())?;
    Ok(())
}

/// Adds which question it is.
fn push_asked(text: &mut Vec<u8>, asked: &Asked) -> Result<(), AllocError>
    ensures { OnOk result (text.new.items ≡ text.old.items ++ asked_part asked.now) }
{
    text.extend_from_slice(b"# line ")?;
    push_number(text, asked.line)
}

/// Adds the events of an order, each as its line of a script.
fn push_order(text: &mut Vec<u8>, choices: &[Choice]) -> Result<(), AllocError>
    ensures { OnOk result (text.new.items ≡ text.old.items ++ order_text choices.now) }
{
    for choice in choices {
        push_event(text, &choice.event)?;
        text.push(b'\n')?;
    }
    Ok(())
}

/// Adds how many events an order has that begins with these choices and goes on with those, and all its events.
fn push_found_order(
    text: &mut Vec<u8>,
    first: &[Choice],
    choices: &[Choice],
) -> Result<(), AllocError>
    ensures { OnOk result (text.new.items ≡ text.old.items
        ++ found_order_text (first.now ++ choices.now)) }
{
    text.extend_from_slice(b": yes, events ")?;
    push_sum(text, first.len(), choices.len())?;
    text.push(b'\n')?;
    push_order(text, first)?;
    push_order(text, choices)
}

/// Adds that not all was seen, and that no order that begins with these choices and has fewer steps behind them meets
/// the question.
fn push_unseen(text: &mut Vec<u8>, first: &[Choice], below: usize) -> Result<(), AllocError>
    ensures { OnOk result (text.new.items ≡ text.old.items ++ unseen_text first.now below) }
{
    text.extend_from_slice(b": not all seen, no order of fewer than ")?;
    push_sum(text, first.len(), below)?;
    text.extend_from_slice(b" events\n")?;
    Ok(())
}

/// Adds what was found of a question, where orders begin with these choices.
pub(crate) fn push_finding(
    text: &mut Vec<u8>,
    asked: &Asked,
    first: &[Choice],
    found: &Found,
) -> Result<(), AllocError>
    ensures { OnOk result (text.new.items ≡ text.old.items
        ++ finding_text first.now asked.now found.now) }
{
    push_asked(text, asked)?;
    match found {
        Found::Order {
            choices,
            answers: _,
        } => push_found_order(text, first, choices.as_slice()),
        Found::Never => {
            text.extend_from_slice(b": no order\n")?;
            Ok(())
        }
        Found::Cut { below } => push_unseen(text, first, *below),
    }
}

/// Adds what a search of all orders has met, if it came to its end.
fn push_tally(text: &mut Vec<u8>, tally: &Tally) -> Result<(), AllocError>
    ensures { OnOk result (text.new.items ≡ text.old.items ++ tally_text tally.now) }
{
    text.extend_from_slice(b"# orders ")?;
    push_number(text, tally.orders)?;
    text.extend_from_slice(b" states ")?;
    push_number(text, tally.states)?;
    text.extend_from_slice(b" ends ")?;
    push_number(text, tally.ends)?;
    text.extend_from_slice(b" worlds ")?;
    push_number(text, tally.worlds)?;
    text.push(b'\n')?;
    Ok(())
}

/// Adds that a search was cut behind so many states, and how many choices there are where it began.
fn push_cut(text: &mut Vec<u8>, left: usize, tally: &Tally) -> Result<(), AllocError>
    ensures { OnOk result (text.new.items ≡ text.old.items ++ cut_text left tally.now) }
{
    text.extend_from_slice(b"# not all seen, states ")?;
    push_number(text, tally.states)?;
    text.extend_from_slice(b" choices ")?;
    push_length(text, left)?;
    text.push(b'\n')?;
    Ok(())
}

/// Adds what a search of all orders has met that began where there are so many choices.
pub(crate) fn push_count(text: &mut Vec<u8>, left: usize, seen: &Seen) -> Result<(), AllocError>
    ensures { OnOk result (text.new.items ≡ text.old.items ++ count_text left seen.now) }
{
    if let Found::Cut { below: _ } = seen.found {
        return push_cut(text, left, &seen.tally);
    }
    push_tally(text, &seen.tally)
}
