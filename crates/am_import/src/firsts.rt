//! Where numbers and texts first stand in a list.

ghost use Rattle.std.specs.Prelude.{◌≡◌, IfOk};
ghost use Rattle.std.specs.Ordering.{nat_cmp};
ghost use Rattle.std.specs.BTreeMap.{get};
ghost use Rattle.am_import.specs.Firsts.{AreFirsts, AreShown, shown_in};

use crate::likeness::Row;
use std::alloc::{AllocError, Global};
use std::collections::BTreeMap;

/// Where each of these numbers stands for the first time.
pub(crate) fn first_places(
    alloc: Global,
    numbers: &[Option<u64>],
) -> Result<BTreeMap<u64, usize>, AllocError>
    ensures { IfOk result (λ places. AreFirsts places numbers.now) }
{
    let mut places = BTreeMap::new(alloc);
    let mut place = numbers.len();
    while place > 0 {
        place -= 1;
        // An earlier place takes that of a later one.
        if let Some(number) = numbers[place] {
            places.insert(number, place)?;
        }
    }
    Ok(places)
}

/// Where a number stands for the first time.
pub(crate) fn place_of(places: &BTreeMap<u64, usize>, number: u64) -> Option<usize>
    ensures { result ≡ get nat_cmp places.now number }
{
    places.get(&number).copied()
}

/// Where what each line shows is shown for the first time.
pub(crate) fn first_shown<'a>(
    alloc: Global,
    rows: &'a [Row],
) -> Result<BTreeMap<&'a [u8], usize>, AllocError>
    ensures { IfOk result (λ places. AreShown places rows.now) }
{
    let mut places = BTreeMap::new(alloc);
    let mut place = rows.len();
    while place > 0 {
        place -= 1;
        places.insert(rows[place].line.shown.as_slice(), place)?;
    }
    Ok(places)
}

/// Where this is shown for the first time.
pub(crate) fn shown_place<'a>(places: &BTreeMap<&'a [u8], usize>, shown: &'a [u8]) -> Option<usize>
    ensures { result ≡ shown_in places.now shown.now }
{
    places.get(&shown).copied()
}
