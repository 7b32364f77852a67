//! The bytes of a line at which its words stand.

ghost use Rattle.std.specs.Prelude.{◌≡◌, position};
ghost use Rattle.am_lines.specs.{is_blank};
ghost use Rattle.am_diagnosis.specs.Columns.{IsColumn, IsSkipped, is_letter};

/// The byte of the line, from 1, at which its word at this place, from 0, begins; that behind its
/// last where it has no such word.
pub fn column(line: &[u8], place: usize) -> usize
    ensures { IsColumn line.now place result }
{
    let mut rest = line;
    for _word in 0..place {
        rest = behind_word(behind_blanks(rest));
    }
    line.len() - behind_blanks(rest).len() + 1
}

/// What stands behind the blanks with which it begins.
fn behind_blanks(line: &[u8]) -> &[u8]
    ensures { IsSkipped is_blank line.now result.now }
{
    match letter_place(line) {
        Some(at) => &line[at..],
        None => &[],
    }
}

/// What stands behind the word with which it begins.
fn behind_word(line: &[u8]) -> &[u8]
    ensures { IsSkipped is_letter line.now result.now }
{
    match blank_place(line) {
        Some(at) => &line[at..],
        None => &[],
    }
}

fn letter_place(line: &[u8]) -> Option<usize>
    ensures { result ≡ position is_letter line.now }
{
    line.iter().position(|b| !(*b == b' ' || *b == b'\t'))
}

fn blank_place(line: &[u8]) -> Option<usize>
    ensures { result ≡ position is_blank line.now }
{
    line.iter().position(|b| *b == b' ' || *b == b'\t')
}
