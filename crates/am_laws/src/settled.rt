//! How much of what was seen is settled: no token that was queued in it is open any more.

ghost use Rattle.std.specs.Prelude.{◌≡◌, ◌≤◌, length, take, nat_lt};
ghost use Rattle.am_laws.specs.Lately.{WereLawful, AreSettled, Settles, can_close, is_pending, greatest_with};

use crate::counts::is_open;
use am_names::Token;
use am_state::Obs;

/// What can close tokens.
fn can_close(o: &Obs) -> bool
    ensures { result ≡ can_close o.now }
{
    matches!(o, Obs::Answered { .. } | Obs::Catatonic { .. })
}

/// A token is queued first of these, and open after them.
fn is_pending(o: &Obs, lately: &[Obs]) -> bool
    ensures { result ≡ is_pending o.now lately.now }
{
    match o {
        Obs::Queued { token, .. } => is_open(*token, lately),
        _ => false,
    }
}

/// The place of the first token that is open still, from a place on behind which it is.
fn first_open(settled: usize, seen: &[Obs]) -> usize
    requires part { settled ≤ length seen.now }
    requires were { WereLawful seen.now }
    requires are { AreSettled (take settled seen.now) seen.now }
    ensures part { result ≤ length seen.now }
    ensures are { AreSettled (take result seen.now) seen.now }
{
    let mut settled = settled;
    while let Some((o, _)) = seen[settled..].split_first() {
        if is_pending(o, &seen[settled..]) {
            return settled;
        }
        settled += 1;
    }
    settled
}

/// How much is settled where this is seen next.
pub fn settled_at(settled: usize, seen: &[Obs], next: &Obs) -> usize
    requires part { settled ≤ length seen.now }
    requires were { WereLawful seen.now }
    requires are { AreSettled (take settled seen.now) seen.now }
    ensures { Settles result settled seen.now next.now }
{
    if can_close(next) {
        first_open(settled, seen)
    } else {
        settled
    }
}

pub fn is_greater(token: Token, other: Token) -> bool
    ensures { result ≡ nat_lt other token }
{
    token.0 > other.0
}

/// The greatest token, once this is seen.
pub fn greatest_with(greatest: Token, o: &Obs) -> Token
    ensures { result ≡ greatest_with greatest o.now }
{
    match o {
        Obs::Queued { token, .. } if is_greater(*token, greatest) => *token,
        _ => greatest,
    }
}
