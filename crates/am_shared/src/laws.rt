//! What holds of the packets of a shared world.

ghost use Rattle.std.specs.Prelude.{ℕ, List, ◌++◌, length};
ghost use Rattle.am_pipe.specs.{Note, AreAsPut};
ghost use Rattle.am_pipe.specs.Ends.{HasEachOnce};
ghost use Rattle.am_shared.specs.Packets.{AreThePackets, waiting};
ghost use Rattle.am_shared.specs.Sharing.{Sharing, IsShared};

/// Where all notes that were put were taken or are left in the pipe, as `am_pipe::gather` says of
/// all its ends: what was taken, what is left and what waits for room are the queued packets of the
/// trace, each once.
pub fn packets_are_taken_left_or_unsent()
    ensures { (s : Sharing) (taken_and_left : List (ℕ × Note)) → IsShared s
        → AreAsPut s.put.sent taken_and_left → HasEachOnce (length s.put.sent) taken_and_left
        → AreThePackets s (taken_and_left ++ waiting s) }
{}
