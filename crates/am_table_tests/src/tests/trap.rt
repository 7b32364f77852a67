//! Triggers as tables hold them.

use am_names::{Errno, FsId, Name, Trigger};

/// A trigger: its file system and its name, without a byte for the root of a direct autofs.
#[derive(Clone, Copy)]
pub struct Trap(pub u32, pub &'static [u8]);

impl Trap {
    pub fn trigger(self) -> Result<Trigger, Errno> {
        let fs = FsId(self.0);
        if self.1.is_empty() {
            return Ok(Trigger { fs, name: None });
        }
        Ok(Trigger {
            fs,
            name: Some(Name::read(self.1)?),
        })
    }

    pub fn is(self, trigger: &Trigger) -> bool {
        if trigger.fs != FsId(self.0) {
            return false;
        }
        match &trigger.name {
            Some(name) => name.as_bytes() == self.1,
            None => self.1.is_empty(),
        }
    }
}
