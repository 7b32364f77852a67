//! What was handed on of a list.

ghost use Rattle.std.specs.Prelude.{◌≡◌, ◌++◌, [], List};
ghost use Rattle.std.specs.Borrow.{ftrue};

use std::marker::{Model, PhantomData, Send, Sync};

/// What was handed on of a list, in order. A contract sees all of it, as `items`; the program keeps
/// no word, and no call does anything when it runs.
#[derive(Drop)]
pub struct Trail<T> {
    of: PhantomData<T>,
    pub ghost items: { List T },
}

impl<T> Model for Trail<T> {
    ghost also_owns = { λ _. ftrue };
}

// It owns nothing.
unsafe impl<T> Send for Trail<T> {}

unsafe impl<T> Sync for Trail<T> {}

impl<T> Trail<T> {
    /// Nothing was handed on.
    pub fn new() -> Trail<T>
        ensures { result.items ≡ [] }
    {
        Trail { of: PhantomData }
    }

    /// These are handed on too, behind what was before.
    pub fn and(&self, list: &Vec<T>) -> Trail<T>
        ensures { result.items ≡ self.now.items ++ list.now.items }
    {
        Trail { of: PhantomData }
    }
}
