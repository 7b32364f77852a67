//! Laws: what is true of the orders of every scene.

ghost use Rattle.am_explore.specs.Cuts.{AreCut, HaveNumbers, PartsTellFirst, PartsTellNever};

/// A search can be cut: an order is one of its first choices, and one from where they lead. So what is
/// explored from all stands that as many choices lead to are all orders that are as long or longer.
pub fn orders_are_cut()
    ensures { AreCut }
{}

/// What is found never in each part is found never: behind each first step no order meets a question, and
/// the beginning is no end that does, so no order from there does.
pub fn parts_tell_never()
    ensures { PartsTellNever }
{}

/// What is shortest in the parts is shortest, but for the first step: where behind each first step no order that is
/// shorter than so many events meets a question, and the beginning is no end that does, none from there does that is
/// shorter than these and one.
pub fn parts_tell_first()
    ensures { PartsTellFirst }
{}

/// The parts are all: each order is named by the numbers of its choices, as `lead` takes them, and such numbers name
/// orders alone.
pub fn orders_have_numbers()
    ensures { HaveNumbers }
{}
