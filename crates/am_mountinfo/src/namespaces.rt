//! The namespaces that have mounts.

ghost use Rattle.std.specs.Prelude.{◌≡◌, map, IfOk};
ghost use Rattle.am_mountinfo.specs.Mountinfo.{AreNamespaces};

use am_names::MountRow;
use std::alloc::{AllocError, Global};

/// The numbers of the namespaces of mounts, each once, in rising order.
pub(crate) fn namespaces(alloc: Global, rows: &[MountRow]) -> Result<Vec<u32>, AllocError>
    ensures { IfOk result (λ order. AreNamespaces rows.now order.items) }
{
    let mut order = numbers(alloc, rows)?;
    order.sort()?;
    order.dedup();
    Ok(order)
}

/// The number of each mount's namespace.
fn numbers(alloc: Global, rows: &[MountRow]) -> Result<Vec<u32>, AllocError>
    ensures { IfOk result (λ numbers. numbers.items ≡ map (λ row. row.ns) rows.now) }
{
    rows.iter().map(|row| row.ns.0).collect(alloc)
}
