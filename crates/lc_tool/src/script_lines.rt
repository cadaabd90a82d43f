//! The lines of a script as they come.
ghost use Rattle.std.specs.Prelude.{◌≡◌, ◌≢◌, ◌≤◌, ◌<◌, IfOk, IfSome, Some, length};
ghost use Rattle.std.specs.Io.BufRead.{drop_through, take_through};
ghost use Rattle.lc_tool.specs.Coming.{lines_left};

use crate::ToolFault;
use crate::scripts::LONGEST;
use crate::source::Source;
use std::alloc::{AllocError, Global};
use std::io::{BufRead, BufReader, Read};

/// The lines of a script that a reader still has.
#[derive(Drop)]
pub(crate) struct ScriptLines<'a, R: Read> {
    source: BufReader<Source<'a, R>>,
}

impl<'a, R: Read> ScriptLines<'a, R> {
    /// Those of a reader.
    pub(crate) fn new(alloc: Global, reader: &'a mut R) -> Result<Self, AllocError>
        ensures left { IfOk result (λ lines. lines_left R.remaining lines ≡ R.remaining reader.entry.now) }
    {
        match BufReader::new(alloc, Source::new(reader)) {
            Ok(source) => Ok(ScriptLines { source }),
            Err(_) => Err(AllocError),
        }
    }

    /// The next line with its end, or nothing after the last: no more is read than there is where the line ends. Of a
    /// line that is longer than the longest script more bytes than that are answered, and what is read then is lost.
    pub(crate) fn next(&mut self, alloc: Global) -> Result<Vec<u8>, ToolFault>
        ensures line { IfOk result (λ line. length line.items ≤ LONGEST
            → IfSome (lines_left R.remaining self.old) (λ script.
            (line.items ≡ take_through 10 script)
            × (lines_left R.remaining self.new ≡ Some (drop_through 10 script)))) }
        ensures long { IfOk result (λ line. LONGEST < length line.items
            → IfSome (lines_left R.remaining self.old) (λ script. LONGEST < length (take_through 10 script))) }
        ensures writes { result ≢ Err ToolFault.Write }
    {
        let mut line = Vec::new(alloc);
        self.source.get_mut().room = LONGEST + 1;
        match self.source.read_until(b'\n', &mut line) {
            Ok(_) => Ok(line),
            Err(_) if line.len() > LONGEST => Ok(line),
            Err(_) if self.source.get_ref().failed => Err(ToolFault::Read),
            Err(_) => Err(ToolFault::NoMemory),
        }
    }
}
