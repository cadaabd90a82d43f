//! Readers and writers that remember why they failed.
use std::io::{self, ErrorKind, Read, Write};

/// A reader or a writer with the first error that it met: a fault that is answered does not say why. A call that was
/// interrupted may be made again, so its error gives way to what the next call meets, be it none.
#[derive(Drop)]
pub struct Noted<T> {
    inner: T,
    error: Option<io::Error>,
}

impl<T: Drop> Noted<T> {
    ghost use Rattle.std.specs.Prelude.{◌≡◌, None};
    ghost use Rattle.lc_tool.specs.Noted.{noted_error, noted_inner, Notes};

    /// This one, which has not failed yet.
    pub fn new(inner: T) -> Noted<T>
        ensures inner { noted_inner result ≡ inner }
        ensures none { noted_error result ≡ None }
    {
        Noted { inner, error: None }
    }

    /// What it met first, if anything; an interrupted call only until the next.
    pub fn error(&self) -> Option<io::Error>
        ensures { result ≡ noted_error self.now }
    {
        self.error
    }

    // Notes what a call met.
    fn note(&mut self, met: Option<io::Error>)
        ensures inner { noted_inner self.new ≡ noted_inner self.old }
        ensures notes { Notes (noted_error self.old) met (noted_error self.new) }
    {
        let is_fault = |error: io::Error| error.kind() != ErrorKind::Interrupted;
        if !self.error.is_some_and(is_fault) {
            self.error = met;
        }
    }

    /// Says on standard error what it met, under this name.
    pub fn tell<R: Eprint>(&self, rt: &R, name: &str) {
        if let Some(error) = self.error {
            let _ = eprintln!(rt; "lcrvm: {name}: {error}");
        }
    }
}

impl<T: Read + Drop> Read for Noted<T> {
    ghost use Rattle.std.specs.Result.{result_err};
    ghost use Rattle.std.specs.Io.{ReadsAtMost};
    ghost use Rattle.std.specs.Io.KnownBytes.{ReadConsumes};
    ghost use Rattle.lc_tool.specs.Noted.{noted_error, noted_inner, Notes};

    ghost remaining = { λ noted. T.remaining noted.inner };

    fn read(&mut self, buffer: &mut [u8]) -> io::Result<usize>
        ensures bound { ReadsAtMost result buffer.new }
        ensures bytes { ReadConsumes (T.remaining (noted_inner self.old)) (T.remaining (noted_inner self.new))
            result buffer.new }
        ensures notes { Notes (noted_error self.old) (result_err result) (noted_error self.new) }
    {
        let given = self.inner.read(buffer);
        self.note(given.err());
        given
    }
}

impl<T: Write + Drop> Write for Noted<T> {
    ghost use Rattle.std.specs.Result.{result_err};
    ghost use Rattle.std.specs.Io.{WritesAtMost};
    ghost use Rattle.std.specs.Io.KnownBytes.{Keeps, WriteAppends};
    ghost use Rattle.lc_tool.specs.Noted.{noted_error, noted_inner, Notes};

    ghost contents = { λ noted. T.contents noted.inner };

    fn write(&mut self, bytes: &[u8]) -> io::Result<usize>
        ensures bound { WritesAtMost result bytes.now }
        ensures bytes { WriteAppends (T.contents (noted_inner self.old)) (T.contents (noted_inner self.new))
            result bytes.now }
        ensures notes { Notes (noted_error self.old) (result_err result) (noted_error self.new) }
    {
        let given = self.inner.write(bytes);
        self.note(given.err());
        given
    }

    fn flush(&mut self) -> io::Result<()>
        ensures bytes { Keeps (T.contents (noted_inner self.old)) (T.contents (noted_inner self.new)) }
        ensures notes { Notes (noted_error self.old) (result_err result) (noted_error self.new) }
    {
        let given = self.inner.flush();
        self.note(given.err());
        given
    }
}
