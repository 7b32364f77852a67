//! The head of the script: the maps of the autofs file systems of the first namespace.

use crate::targets::Targets;
use am_mount_lines::{MountLine, Trap};
use itoa::Buffer;
use std::alloc::{AllocError, Global};

/// The autofs of a row of the first namespace, if a script can say it.
fn trap_in(targets: &Targets, row: usize) -> Option<Trap> {
    let target = targets.rows.get(row)?;
    if target.is_left || target.space != 0 || target.shows != row {
        return None;
    }
    target.trap
}

/// Whether an autofs is direct. Where its line doesn't say, it is if something is mounted on its root.
fn is_direct(alloc: Global, targets: &Targets, row: usize, trap: Trap) -> Result<bool, AllocError> {
    match trap.is_direct {
        Some(is_direct) => Ok(is_direct),
        None => targets.has_cover(alloc, row),
    }
}

/// The head, to its line `events`. Which keys there are a mountinfo doesn't say: each key has an entry.
pub(crate) fn head_text(
    alloc: Global,
    lines: &[MountLine],
    targets: &Targets,
) -> Result<Vec<u8>, AllocError> {
    let mut master = Vec::new(alloc);
    let mut direct = Vec::new(alloc);
    let mut is_indirect = false;
    let mut timeout = None;
    for (row, line) in lines.iter().enumerate() {
        if let Some(trap) = trap_in(targets, row) {
            if is_direct(alloc, targets, row, trap)? {
                put_path(&mut direct, line.path.text())?;
                direct.extend_from_slice(b" :/\n")?;
                timeout = trap.timeout;
            } else {
                is_indirect = true;
                put_path(&mut master, line.path.text())?;
                if line.path.text() == b"/-".as_slice() {
                    // The point without it is the mark of a direct map.
                    master.push(b'/')?;
                }
                master.extend_from_slice(b" each_key")?;
                put_timeout(&mut master, trap.timeout)?;
            }
        }
    }
    let mut head = Vec::new(alloc);
    if !is_indirect && direct.is_empty() {
        head.extend_from_slice(b"events\n")?;
        return Ok(head);
    }
    head.extend_from_slice(b"master\n")?;
    head.extend_from_slice(master.as_slice())?;
    if !direct.is_empty() {
        head.extend_from_slice(b"/- each_path")?;
        put_timeout(&mut head, timeout)?;
    }
    head.extend_from_slice(b"end\n")?;
    if is_indirect {
        head.extend_from_slice(b"map each_key\n* :/&\nend\n")?;
    }
    if !direct.is_empty() {
        head.extend_from_slice(b"map each_path\n")?;
        head.extend_from_slice(direct.as_slice())?;
        head.extend_from_slice(b"end\n")?;
    }
    head.extend_from_slice(b"events\n")?;
    Ok(head)
}

/// A path; that of the root is one slash.
fn put_path(text: &mut Vec<u8>, path: &[u8]) -> Result<(), AllocError> {
    if path.is_empty() {
        text.push(b'/')?;
    }
    text.extend_from_slice(path)?;
    Ok(())
}

/// The end of a line of the master map.
fn put_timeout(text: &mut Vec<u8>, timeout: Option<u32>) -> Result<(), AllocError> {
    if let Some(seconds) = timeout {
        let mut digits = Buffer::new();
        text.extend_from_slice(b" --timeout=")?;
        text.extend_from_slice(digits.format(seconds).as_bytes())?;
    }
    text.push(b'\n')?;
    Ok(())
}
