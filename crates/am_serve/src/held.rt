//! What was read of a line whose end wasn't.

ghost use Rattle.std.specs.Prelude.{◌≡◌, ◌≢◌, ◌++◌, [], List, ℕ, false, true};
ghost use Rattle.am_serve.specs.Reading.{IsHeld};

use arrayvec::ArrayVec;

/// The beginning of a line, or that it is too long.
#[derive(Drop)]
pub(crate) struct Held {
    pub bytes: ArrayVec<u8, 8192>,
    pub is_long: bool,
}

impl Held {
    pub fn new() -> Held
        ensures { IsHeld result [] }
    {
        Held {
            bytes: ArrayVec::new(),
            is_long: false,
        }
    }

    /// Adds bytes to the line.
    pub fn hold(&mut self, bytes: &[u8])
        ensures { (begun : List ℕ) → IsHeld self.old begun → IsHeld self.new (begun ++ bytes.now) }
    {
        if self.is_long {
            return;
        }
        if let Err(_) = self.bytes.try_extend_from_slice(bytes) {
            self.is_long = true;
        }
    }

    /// Another line begins.
    pub fn clear(&mut self)
        ensures { IsHeld self.new [] }
    {
        self.bytes.clear();
        self.is_long = false;
    }

    /// Whether the line has no byte so far.
    pub fn is_empty(&self) -> bool
        ensures empty { result ≡ true → (begun : List ℕ) → IsHeld self.now begun → begun ≡ [] }
        ensures some { result ≡ false → (begun : List ℕ) → IsHeld self.now begun → begun ≢ [] }
    {
        if self.is_long {
            return false;
        }
        self.bytes.is_empty()
    }
}
