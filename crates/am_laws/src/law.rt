//! The laws of a trace, one by one.

ghost use Rattle.std.specs.Prelude.{◌≡◌};
ghost use Rattle.am_laws.specs.Breaches.{broken_by_answer, broken_by_delivery, broken_law, law_number, sentence_of, unless};

use crate::counts::{all_unused, has_delivered, has_queued, is_in_queue, is_open};
use crate::{all_closed, all_released, is_expiring, may_be_released};
use am_names::{Attach, Token};
use am_state::Obs;
use am_wire::Packet;

/// A law of traces: what it asks of the observations of one kind, wherever they stand (autofs.rst,
/// "Communicating with autofs: the event pipe", "Catatonic mode" and "Mountpoint expiry").
#[derive(Clone, Copy, Debug, PartialEq, Eq, Hash)]
pub enum Law {
    QueuedOnce,
    WaitsOnOpen,
    DeliveredFromQueue,
    DeliveredOnce,
    AnsweredWhileOpen,
    AnsweredAfterDelivery,
    AnswerReleasesAll,
    CatatonicReleasesAll,
    ReleasedByCause,
    PassesNoExpiry,
    UnmountsUnused,
}

/// The first observation of a trace that breaks a law.
#[derive(Clone, Copy, Debug, PartialEq, Eq)]
pub struct Breach {
    /// How many observations stand before it.
    pub place: usize,
    pub law: Law,
}

impl Law {
    /// The number of the law, from 1.
    pub fn number(self) -> u8
        ensures { result ≡ law_number self }
    {
        match self {
            Law::QueuedOnce => 1,
            Law::WaitsOnOpen => 2,
            Law::DeliveredFromQueue => 3,
            Law::DeliveredOnce => 4,
            Law::AnsweredWhileOpen => 5,
            Law::AnsweredAfterDelivery => 6,
            Law::AnswerReleasesAll => 7,
            Law::CatatonicReleasesAll => 8,
            Law::ReleasedByCause => 9,
            Law::PassesNoExpiry => 10,
            Law::UnmountsUnused => 11,
        }
    }

    /// What the law asks, in a sentence.
    pub fn sentence(self) -> &'static str
        ensures { result.now ≡ sentence_of self }
    {
        match self {
            Law::QueuedOnce => "a packet of a token is queued once",
            Law::WaitsOnOpen => "a walker waits on a token that is open",
            Law::DeliveredFromQueue => "the packet that is delivered stands in the queue",
            Law::DeliveredOnce => "the packet of a token is delivered once",
            Law::AnsweredWhileOpen => "a token that is answered is open",
            Law::AnsweredAfterDelivery => "a token is answered behind its delivery",
            Law::AnswerReleasesAll => "an answer releases, at once, all who wait on its token",
            Law::CatatonicReleasesAll =>
                "catatonic mode releases, at once, all who wait on open tokens of its file system",
            Law::ReleasedByCause =>
                "a walker is released once from the token that it waits on, by what closes it",
            Law::PassesNoExpiry => "no walk passes a trigger whose expiry is outstanding",
            Law::UnmountsUnused => "no mount that is in use is unmounted",
        }
    }
}

fn unless(is_kept: bool, law: Law) -> Option<Law>
    ensures { result ≡ unless is_kept law }
{
    if is_kept { None } else { Some(law) }
}

/// The law that an answer breaks.
fn law_of_answer(before: &[Obs], token: Token, rest: &[Obs]) -> Option<Law>
    ensures { result ≡ broken_by_answer before.now token rest.now }
{
    if !is_open(token, before) {
        return Some(Law::AnsweredWhileOpen);
    }
    if !has_delivered(before, token) {
        return Some(Law::AnsweredAfterDelivery);
    }
    unless(all_released(before, token, rest), Law::AnswerReleasesAll)
}

/// The law that a delivery breaks.
fn law_of_delivery(before: &[Obs], token: Token, attach: Attach, packet: &Packet) -> Option<Law>
    ensures { result ≡ broken_by_delivery before.now token attach packet.now }
{
    if !is_in_queue(token, attach, packet, before) {
        return Some(Law::DeliveredFromQueue);
    }
    unless(!has_delivered(before, token), Law::DeliveredOnce)
}

/// The law that an observation breaks where it stands, if it isn't lawful.
pub fn broken_law(before: &[Obs], o: &Obs, rest: &[Obs]) -> Option<Law>
    ensures { result ≡ broken_law before.now o.now rest.now }
{
    match o {
        Obs::Queued { token, .. } => unless(!has_queued(before, *token), Law::QueuedOnce),
        Obs::Waits { token, .. } => unless(is_open(*token, before), Law::WaitsOnOpen),
        Obs::Answered { token, .. } => law_of_answer(before, *token, rest),
        Obs::Catatonic { fs } => unless(all_closed(*fs, before, rest), Law::CatatonicReleasesAll),
        Obs::Released {
            walker,
            token,
            status,
        } => unless(
            may_be_released(before, *walker, *token, *status),
            Law::ReleasedByCause,
        ),
        Obs::Passed { trigger, .. } => unless(
            !is_expiring(before, &trigger.to_trigger()),
            Law::PassesNoExpiry,
        ),
        Obs::Unmounted { mounts } => unless(
            all_unused(before, mounts.as_slice()),
            Law::UnmountsUnused,
        ),
        Obs::Delivered {
            token,
            attach,
            packet,
        } => law_of_delivery(before, *token, *attach, &packet.to_packet()),
        Obs::Entered { .. }
        | Obs::Left { .. }
        | Obs::Mounted { .. }
        | Obs::Recorded { .. }
        | Obs::Reattached { .. }
        | Obs::Died => None,
    }
}
