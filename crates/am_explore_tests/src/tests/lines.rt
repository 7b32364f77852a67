//! What the world's text has at ends.

use crate::tests::orders::shortest;
use crate::tests::scenes::{EXPIRY, TWO_WALKERS};
use am_explore::Question;
use am_names::Errno;
use std::alloc::Global;
use std::test::Fail;

/// How many events a shortest order of two walkers has at whose end such a line stands, or doesn't.
fn shows(alloc: Global, words: &[u8], stands: bool) -> Result<Option<usize>, Errno> {
    let mut line = Vec::new(alloc);
    line.extend_from_slice(words)?;
    let question = if stands {
        Question::Shows { line }
    } else {
        Question::Lacks { line }
    };
    shortest(alloc, TWO_WALKERS, &question)
}

#[test]
fn a_line_stands_at_each_end(rt: HostRuntime) -> Result<(), Fail> {
    let stands = shows(rt.alloc(), b"# namespace 1", true)?;
    let lacks = shows(rt.alloc(), b"# namespace 1", false)?;
    assert!(rt; stands.is_some());
    assert_eq!(rt; lacks, None);
    Ok(())
}

#[test]
fn a_line_stands_at_no_end(rt: HostRuntime) -> Result<(), Fail> {
    let stands = shows(rt.alloc(), b"# namespace 2", true)?;
    let shorter = shows(rt.alloc(), b"# namespace", true)?;
    let longer = shows(rt.alloc(), b"# namespace 1 *", true)?;
    let lacks = shows(rt.alloc(), b"# namespace 2", false)?;
    assert_eq!(rt; stands, None);
    assert_eq!(rt; shorter, None);
    assert_eq!(rt; longer, None);
    assert!(rt; lacks.is_some());
    Ok(())
}

#[test]
fn a_star_is_any_word(rt: HostRuntime) -> Result<(), Fail> {
    let stands = shows(rt.alloc(), b"# * 1", true)?;
    let lacks = shows(rt.alloc(), b"*  namespace\t1 ", false)?;
    assert!(rt; stands.is_some());
    assert_eq!(rt; lacks, None);
    Ok(())
}

#[test]
fn a_line_stands_at_some_ends(rt: HostRuntime) -> Result<(), Fail> {
    let alloc = rt.alloc();
    let mut line = Vec::new(alloc);
    line.extend_from_slice(b"# inside * *")?;
    let expired = shortest(alloc, EXPIRY, &Question::Lacks { line })?;
    assert!(rt; expired.is_some());
    Ok(())
}
