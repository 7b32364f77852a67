//! The lines of what an administrator does.

ghost use Rattle.std.specs.Prelude.{◌≡◌, option_map};
ghost use Rattle.am_lines.specs.{words_of};
ghost use Rattle.am_script.specs.AdministratorLines.{mount_read, mount_event, bind_read, bind_event, umount_read, umount_event, change_line_read, change_event, kind_read, kind_event, nscopy_read, nsdrop_read, admincat_read};
ghost use Rattle.am_script.specs.Events.{ReadAs};

use crate::event_word::{read_change, read_form};
use crate::line_words::{only_word, three_words, two_words};
use crate::number::read_u32;
use am_group::Change;
use am_lines::next_word;
use am_machine::Event;
use am_names::{AbsPath, FsId, NsId};
use am_propagate::CopyForm;
use std::alloc::{AllocError, Global};

/// A namespace and a path.
#[tactic(auto, using(crate::proofs::LineWordsLemmas::no_mount, crate::proofs::LineWordsLemmas::no_umount, crate::proofs::LineWordsLemmas::no_kind))]
fn path_words(words: &[u8]) -> Option<(NsId, AbsPath<'_>)>
    ensures mount { option_map mount_event result ≡ mount_read (words_of words.now) }
    ensures umount { option_map umount_event result ≡ umount_read (words_of words.now) }
    ensures kind { option_map kind_event result ≡ kind_read (words_of words.now) }
{
    let (ns, path) = two_words(words)?;
    Some((NsId(read_u32(ns)?), AbsPath::read(path).ok()?))
}

pub(crate) fn read_mount(alloc: Global, words: &[u8]) -> Result<Option<Event>, AllocError>
    ensures { ReadAs (mount_read (words_of words.now)) result }
{
    let Some((ns, path)) = path_words(words) else {
        return Ok(None);
    };
    Ok(Some(Event::Mount {
        ns,
        path: path.to_place(alloc)?,
    }))
}

#[tactic(auto, using(crate::proofs::LineWordsLemmas::no_bind))]
fn bind_words(words: &[u8]) -> Option<(NsId, AbsPath<'_>, AbsPath<'_>)>
    ensures { option_map bind_event result ≡ bind_read (words_of words.now) }
{
    let (ns, from, to) = three_words(words)?;
    Some((
        NsId(read_u32(ns)?),
        AbsPath::read(from).ok()?,
        AbsPath::read(to).ok()?,
    ))
}

pub(crate) fn read_bind(alloc: Global, words: &[u8]) -> Result<Option<Event>, AllocError>
    ensures { ReadAs (bind_read (words_of words.now)) result }
{
    let Some((ns, from, to)) = bind_words(words) else {
        return Ok(None);
    };
    Ok(Some(Event::Bind {
        ns,
        from: from.to_place(alloc)?,
        to: to.to_place(alloc)?,
    }))
}

pub(crate) fn read_umount(alloc: Global, words: &[u8]) -> Result<Option<Event>, AllocError>
    ensures { ReadAs (umount_read (words_of words.now)) result }
{
    let Some((ns, path)) = path_words(words) else {
        return Ok(None);
    };
    Ok(Some(Event::Umount {
        ns,
        path: path.to_place(alloc)?,
    }))
}

#[tactic(auto, using(crate::proofs::LineWordsLemmas::no_change_line))]
fn change_words(words: &[u8]) -> Option<(NsId, AbsPath<'_>, Change)>
    ensures { option_map change_event result ≡ change_line_read (words_of words.now) }
{
    let (ns, path, kind) = three_words(words)?;
    Some((
        NsId(read_u32(ns)?),
        AbsPath::read(path).ok()?,
        read_change(kind)?,
    ))
}

pub(crate) fn read_change_line(alloc: Global, words: &[u8]) -> Result<Option<Event>, AllocError>
    ensures { ReadAs (change_line_read (words_of words.now)) result }
{
    let Some((ns, path, change)) = change_words(words) else {
        return Ok(None);
    };
    Ok(Some(Event::Change {
        ns,
        path: path.to_place(alloc)?,
        change,
    }))
}

pub(crate) fn read_kind(alloc: Global, words: &[u8]) -> Result<Option<Event>, AllocError>
    ensures { ReadAs (kind_read (words_of words.now)) result }
{
    let Some((ns, path)) = path_words(words) else {
        return Ok(None);
    };
    Ok(Some(Event::Kind {
        ns,
        path: path.to_place(alloc)?,
    }))
}

pub(crate) fn read_nscopy(words: &[u8]) -> Option<Event>
    ensures { result ≡ nscopy_read (words_of words.now) }
{
    let (ns, words) = next_word(words)?;
    let Some((form, words)) = next_word(words) else {
        return Some(Event::CopyNamespace {
            ns: NsId(read_u32(ns)?),
            form: CopyForm::Full,
        });
    };
    if let Some(_) = next_word(words) {
        return None;
    }
    Some(Event::CopyNamespace {
        ns: NsId(read_u32(ns)?),
        form: read_form(form)?,
    })
}

#[tactic(auto, using(crate::proofs::LineWordsLemmas::no_nsdrop))]
pub(crate) fn read_nsdrop(words: &[u8]) -> Option<Event>
    ensures { result ≡ nsdrop_read (words_of words.now) }
{
    let ns = only_word(words)?;
    Some(Event::DropNamespace {
        ns: NsId(read_u32(ns)?),
    })
}

#[tactic(auto, using(crate::proofs::LineWordsLemmas::no_admincat))]
pub(crate) fn read_admincat(words: &[u8]) -> Option<Event>
    ensures { result ≡ admincat_read (words_of words.now) }
{
    let fs = only_word(words)?;
    Some(Event::AdminCatatonic {
        fs: FsId(read_u32(fs)?),
    })
}
