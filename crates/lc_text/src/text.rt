//! Lines of words and numbers.
ghost use Rattle.std.specs.Prelude.{OnOk};
ghost use Rattle.std.specs.Io.KnownBytes.{Appends};
ghost use Rattle.lc_text.specs.Text.{line, closed_text, truncated_text, line_number_text, not_understood_text};
ghost use Rattle.lc_text.specs.Text.{too_long_text, no_memory_text, exists_text};

use std::io;

/// Writes words, each number after a space, and the end of the line.
#[tactic(auto, unfolding(crate::specs::Text::line))]
pub fn write_line<W: io::Write>(writer: &mut W, words: &[u8], numbers: &[u64]) -> io::Result<()>
    ensures { OnOk result (Appends (W.contents writer.old) (W.contents writer.new) (line words.now numbers.now)) }
{
    writer.write_all(words)?;
    for number in numbers {
        write!(writer, " {number}")?;
    }
    writer.write_all(b"\n")
}

/// Writes that a record is closed: its place in the log, and its words.
pub fn write_closed<W: io::Write>(writer: &mut W, place: u32, words: u32) -> io::Result<()>
    ensures { OnOk result (Appends (W.contents writer.old) (W.contents writer.new) (closed_text place words)) }
{
    write_line(writer, b"closed", &[u64::from(place), u64::from(words)])
}

/// Writes that a node's log is empty, and its round.
pub fn write_truncated<W: io::Write>(writer: &mut W, round: u64) -> io::Result<()>
    ensures { OnOk result (Appends (W.contents writer.old) (W.contents writer.new) (truncated_text round)) }
{
    write_line(writer, b"truncated", &[round])
}

/// Writes the number of a line of the script.
pub fn write_line_number<W: io::Write>(writer: &mut W, number: u64) -> io::Result<()>
    ensures { OnOk result (Appends (W.contents writer.old) (W.contents writer.new) (line_number_text number)) }
{
    write_line(writer, b"line", &[number])
}

/// Writes that a line of the script is no command.
pub fn write_not_understood<W: io::Write>(writer: &mut W, line: u64) -> io::Result<()>
    ensures { OnOk result (Appends (W.contents writer.old) (W.contents writer.new) (not_understood_text line)) }
{
    write!(writer, "line {line}: not understood\n")
}

/// Writes that the script is too long.
pub fn write_too_long<W: io::Write>(writer: &mut W) -> io::Result<()>
    ensures { OnOk result (Appends (W.contents writer.old) (W.contents writer.new) too_long_text) }
{
    writer.write_all(b"script too long\n")
}

/// Writes that memory ran out.
pub fn write_no_memory<W: io::Write>(writer: &mut W) -> io::Result<()>
    ensures { OnOk result (Appends (W.contents writer.old) (W.contents writer.new) no_memory_text) }
{
    writer.write_all(b"refused NoMemory\n")
}

/// Writes that a file of the store is there already.
pub fn write_exists<W: io::Write>(writer: &mut W) -> io::Result<()>
    ensures { OnOk result (Appends (W.contents writer.old) (W.contents writer.new) exists_text) }
{
    writer.write_all(b"refused Exists\n")
}
