//! What a line orders of a session as a whole.

ghost use Rattle.std.specs.Prelude.{◌≡◌};
ghost use Rattle.am_lines.specs.{words_of};
ghost use Rattle.am_serve.specs.Orders.{if_alone, order_by, order_in, order_of};

use crate::request::is_long;
use crate::word::is_word;
use am_lines::next_word;

/// What a line orders.
#[derive(Clone, Copy)]
pub enum Order {
    /// The world is to be saved.
    Save,
    /// The saved world is to come back.
    Back,
    /// Neither.
    Other,
}

fn if_alone(order: Order, words: &[u8]) -> Order
    ensures { result ≡ if_alone order (words_of words.now) }
{
    match next_word(words) {
        None => order,
        Some(_) => Order::Other,
    }
}

fn order_by(word: &[u8], words: &[u8]) -> Order
    ensures { result ≡ order_by word.now (words_of words.now) }
{
    if is_word(word, b"!save") {
        return if_alone(Order::Save, words);
    }
    if is_word(word, b"!back") {
        return if_alone(Order::Back, words);
    }
    Order::Other
}

fn order_in(line: &[u8]) -> Order
    ensures { result ≡ order_in (words_of line.now) }
{
    match next_word(line) {
        None => Order::Other,
        Some((word, words)) => order_by(word, words),
    }
}

/// What a line orders, within a section of a head or not.
pub(crate) fn order_of(within: bool, line: &[u8]) -> Order
    ensures { result ≡ order_of within line.now }
{
    if is_long(line) {
        return Order::Other;
    }
    if within {
        return Order::Other;
    }
    order_in(line)
}
