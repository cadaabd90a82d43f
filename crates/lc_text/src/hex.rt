//! Bytes as hexadecimal digits.
ghost use Rattle.std.specs.Prelude.{◌≡◌, ◌<◌, false, OnOk};
ghost use Rattle.std.specs.Fmt.{digit_glyph};
ghost use Rattle.std.specs.Io.KnownBytes.{Appends};
ghost use Rattle.lc_text.specs.Text.{hex_text, word_text, words_text, page_text};

use std::io;

/// The lower case digit of a number below 16.
fn glyph(number: u8) -> u8
    requires { number < 16 }
    ensures { result ≡ digit_glyph false number }
{
    if number < 10 {
        b'0' + number
    } else {
        b'a' + (number - 10)
    }
}

/// Writes two digits for each byte.
#[tactic(auto, unfolding(crate::specs::Text::hex_text))]
pub fn write_hex<W: io::Write>(writer: &mut W, bytes: &[u8]) -> io::Result<()>
    ensures { OnOk result (Appends (W.contents writer.old) (W.contents writer.new) (hex_text bytes.now)) }
{
    for byte in bytes {
        writer.write_all(&[glyph(*byte / 16), glyph(*byte % 16)])?;
    }
    Ok(())
}

/// Writes words, one a line.
pub fn write_words<W: io::Write>(writer: &mut W, words: &[u64]) -> io::Result<()>
    ensures { OnOk result (Appends (W.contents writer.old) (W.contents writer.new) (words_text words.now)) }
{
    for word in words {
        write_word(writer, *word)?;
    }
    Ok(())
}

/// Writes the bytes of a word, the lowest first.
fn write_word<W: io::Write>(writer: &mut W, word: u64) -> io::Result<()>
    ensures { OnOk result (Appends (W.contents writer.old) (W.contents writer.new) (word_text word)) }
{
    write_hex(writer, &word.to_le_bytes())?;
    writer.write_all(b"\n")
}

/// Writes the bytes of a page, 16 in each line.
pub fn write_page<W: io::Write>(writer: &mut W, bytes: &[u8]) -> io::Result<()>
    ensures { OnOk result (Appends (W.contents writer.old) (W.contents writer.new) (page_text bytes.now)) }
{
    let mut rest = bytes;
    while !rest.is_empty() {
        let (line, later) = rest.split_at(rest.len().min(16));
        write_hex(writer, line)?;
        writer.write_all(b"\n")?;
        rest = later;
    }
    Ok(())
}
