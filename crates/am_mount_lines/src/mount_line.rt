//! The line of a mount.

ghost use Rattle.std.specs.Prelude.{◌≡◌, ◌++◌, ◌∷◌, None, drop, map, IfOk, IfErr, OnOk};
ghost use Rattle.am_lines.specs.{words_of};
ghost use Rattle.am_mount_lines.specs.declared.misfit.LineFault.TheVariants as faults;
ghost use Rattle.am_mount_lines.specs.Lines.{misfit_of, IsFaultOf, IsLine};

use crate::escapes::path_told;
use crate::misfit::{Expected, LineFault, Misfit};
use crate::number::read_u64;
use crate::tail::read_tail;
use crate::trap::Trap;
use crate::words::{word_at, words_in};
use am_names::Place;
use std::alloc::{AllocError, Global};

/// A mount, as far as the model has what its line tells.
#[derive(Drop)]
pub struct MountLine {
    /// Its namespace, counted from 0 in the order of the input.
    pub space: u32,
    pub number: u64,
    /// The number of the mount that it is mounted on.
    pub parent: u64,
    /// What it shows: the device, a blank, and the folder of it, as they stand in the line.
    pub shown: Vec<u8>,
    /// Where it is mounted, from the root of the process whose mountinfo it is.
    pub path: Place,
    pub group: Option<u64>,
    pub master: Option<u64>,
    pub is_unbindable: bool,
    pub trap: Option<Trap>,
}

fn fault(place: usize, expected: Expected) -> LineFault
    ensures { result ≡ faults.Misfit (record { place = place; expected = expected }) }
{
    LineFault::Misfit {
        misfit: Misfit { place, expected },
    }
}

/// The six words that each line has, and what stands behind them.
fn behind_six<'a, 'b>(words: &'b [&'a [u8]]) -> &'b [&'a [u8]]
    ensures { result.now ≡ drop 6 words.now }
{
    match words {
        [_, _, _, _, _, _, rest @ ..] => rest,
        _ => &[],
    }
}

/// What a mount shows, as its line tells it.
fn shown(alloc: Global, device: &[u8], root: &[u8]) -> Result<Vec<u8>, AllocError>
    ensures { IfOk result (λ text. text.items ≡ device.now ++ 32 ∷ root.now) }
{
    let mut text = Vec::from_slice(alloc, device)?;
    text.push(b' ')?;
    text.extend_from_slice(root)?;
    Ok(text)
}

/// Reads the words of the line of a mount of a namespace.
fn read_words(alloc: Global, space: u32, words: &[&[u8]]) -> Result<MountLine, LineFault>
    ensures ok { IfOk result (IsLine space (map (λ word. word.now) words.now)) }
    ensures whole { OnOk result (misfit_of (map (λ word. word.now) words.now) ≡ None) }
    ensures err { IfErr result (IsFaultOf (misfit_of (map (λ word. word.now) words.now))) }
{
    let Some(number) = read_u64(word_at(words, 0)) else {
        return Err(fault(0, Expected::Number));
    };
    let Some(parent) = read_u64(word_at(words, 1)) else {
        return Err(fault(1, Expected::Parent));
    };
    if words.len() < 3 {
        return Err(fault(2, Expected::Device));
    }
    if words.len() < 4 {
        return Err(fault(3, Expected::Root));
    }
    let Some(path) = path_told(alloc, word_at(words, 4))? else {
        return Err(fault(4, Expected::Path));
    };
    if words.len() < 6 {
        return Err(fault(5, Expected::Options));
    }
    let tail = read_tail(behind_six(words))?;
    let shown = shown(alloc, word_at(words, 2), word_at(words, 3))?;
    Ok(MountLine {
        space,
        number,
        parent,
        shown,
        path,
        group: tail.group,
        master: tail.master,
        is_unbindable: tail.is_unbindable,
        trap: tail.trap,
    })
}

/// Reads the line of a mount of a namespace.
pub fn read_mount(alloc: Global, space: u32, line: &[u8]) -> Result<MountLine, LineFault>
    ensures ok { IfOk result (IsLine space (words_of line.now)) }
    ensures whole { OnOk result (misfit_of (words_of line.now) ≡ None) }
    ensures err { IfErr result (IsFaultOf (misfit_of (words_of line.now))) }
{
    let words = words_in(alloc, line)?;
    read_words(alloc, space, words.as_slice())
}
