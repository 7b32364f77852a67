//! Bytes as text in a picture.

ghost use Rattle.std.specs.Prelude.{◌≡◌, ◌∷◌, [], ◌++◌, codes};
ghost use Rattle.hex.specs.Hex.{encode_lower};
ghost use Rattle.am_script.specs.{Puts};
ghost use Rattle.am_draw.specs.Words.{is_plain, plain, xml_byte, xml, words};

use am_script::answer_line::put_word;
use am_script::output::Output;
use hex::encode_to_slice;
use std::io::Write;

/// Puts bytes out as text, cut in their middle: so many of the first and of the last stay.
#[tactic(auto, using(am_script::proofs::Pieces::puts_three))]
pub(crate) fn put_words<W: Write>(output: &mut Output, half: usize, bytes: &[u8], writer: &mut W)
    ensures { Puts output.old output.new (words half bytes.now) (W.contents writer.old)
        (W.contents writer.new) }
{
    let last = bytes.len().saturating_sub(half);
    if half < last {
        put_xml(output, &bytes[..half], writer);
        put_word(output, b"...", writer);
        put_xml(output, &bytes[last..], writer);
        return;
    }
    put_xml(output, bytes, writer);
}

/// Puts bytes out as text.
#[tactic(auto, using(am_script::proofs::Pieces::puts_none))]
pub(crate) fn put_xml<W: Write>(output: &mut Output, bytes: &[u8], writer: &mut W)
    ensures { Puts output.old output.new (xml bytes.now) (W.contents writer.old)
        (W.contents writer.new) }
{
    for byte in bytes {
        put_byte(output, *byte, writer);
    }
}

/// What means something in XML is put out as its entity.
fn put_byte<W: Write>(output: &mut Output, byte: u8, writer: &mut W)
    ensures { Puts output.old output.new (xml_byte byte) (W.contents writer.old)
        (W.contents writer.new) }
{
    if byte == b'&' {
        return put_word(output, b"&amp;", writer);
    }
    if byte == b'<' {
        return put_word(output, b"&lt;", writer);
    }
    if byte == b'>' {
        return put_word(output, b"&gt;", writer);
    }
    if byte == b'"' {
        return put_word(output, b"&quot;", writer);
    }
    put_plain(output, byte, writer)
}

/// Whether the byte is shown as it is.
fn is_plain(byte: u8) -> bool
    ensures { result ≡ is_plain byte }
{
    32 <= byte && byte < 127 && byte != b'\\'
}

fn put_plain<W: Write>(output: &mut Output, byte: u8, writer: &mut W)
    ensures { Puts output.old output.new (plain byte) (W.contents writer.old)
        (W.contents writer.new) }
{
    if is_plain(byte) {
        return put_word(output, &[byte], writer);
    }
    put_hex(output, byte, writer)
}

#[tactic(auto, using(am_script::proofs::Pieces::puts_two))]
fn put_hex<W: Write>(output: &mut Output, byte: u8, writer: &mut W)
    ensures { Puts output.old output.new (codes "\\x" ++ encode_lower (byte ∷ []))
        (W.contents writer.old) (W.contents writer.new) }
{
    let mut digits = [0; 2];
    // There is a place for each digit.
    let _fits = encode_to_slice([byte].as_slice(), &mut digits);
    put_word(output, b"\\x", writer);
    put_word(output, digits.as_slice(), writer);
}
