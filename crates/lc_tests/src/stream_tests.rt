//! Readers and writers that fail, and when a reply is out.
use crate::expect::equal;
use lc_fixture::{Narrow, ONE};
use lc_recover::zero_areas;
use lc_text::ToolFault;
use lc_tool::{Manner, run_script};
use std::cell::Cell;
use std::io::{self, Error, ErrorKind, Read, Write};
use std::test::*;

// As a whole, without numbers.
pub(crate) const WHOLE: Manner = Manner {
    follow: false,
    number: false,
};

// Who types these lines, each when the replies to those before are out: a read that comes sooner fails.
#[derive(Drop)]
struct Typist<'a> {
    lines: &'a [&'a str],
    typed: usize,
    answered: &'a Cell<usize>,
}

impl Read for Typist<'_> {
    fn read(&mut self, buf: &mut [u8]) -> io::Result<usize> {
        if self.answered.get() != self.typed {
            return Err(Error::from(ErrorKind::Other));
        }
        let Some(line) = self.lines.get(self.typed) else {
            return Ok(0);
        };
        let Some(room) = buf.get_mut(..line.len()) else {
            return Err(Error::from(ErrorKind::Other));
        };
        room.copy_from_slice(line.as_bytes());
        self.typed = self.typed.saturating_add(1);
        Ok(line.len())
    }
}

// A screen, which counts the replies: what was written between two flushes is one. It notes how much it has at each.
#[derive(Drop)]
struct Screen<'a> {
    bytes: Vec<u8>,
    lens: Vec<usize>,
    answered: &'a Cell<usize>,
}

impl Write for Screen<'_> {
    fn write(&mut self, buf: &[u8]) -> io::Result<usize> {
        self.bytes.extend_from_slice(buf)?;
        Ok(buf.len())
    }

    fn flush(&mut self) -> io::Result<()> {
        let len = self.bytes.len();
        if self.lens.last() != Some(&len) {
            self.lens.push(len)?;
            self.answered.set(self.answered.get().saturating_add(1));
        }
        Ok(())
    }
}

// What the screen shows, and the status.
fn session(
    rt: &impl AllocGlobal,
    manner: Manner,
    lines: &[&str],
) -> Result<(Vec<u8>, Result<u8, ToolFault>), Fail> {
    let alloc = rt.alloc();
    let answered = Cell::new(0);
    let mut typist = Typist {
        lines,
        typed: 0,
        answered: &answered,
    };
    let mut screen = Screen {
        bytes: Vec::new(alloc),
        lens: Vec::new(alloc),
        answered: &answered,
    };
    let areas = zero_areas(alloc, &ONE)?;
    let status = run_script(alloc, ONE, manner, areas, &mut typist, &mut screen);
    Ok((screen.bytes, status))
}

const FOLLOW: Manner = Manner {
    follow: true,
    number: false,
};

const LINES: [&str; 4] = [
    "begin 0 0 1\n",
    "range 0 0 1 3 1\r\n",
    "# a comment\nend 0 0\n",
    "truncate 0\n",
];

#[test]
fn a_reply_is_out_before_the_next_line_is_read(rt: HostRuntime) -> Result<(), Fail> {
    let (text, status) = session(&rt, FOLLOW, &LINES)?;
    assert!(rt; text.as_slice() == "ok\nok\nclosed 0 8\ntruncated 1\n".as_bytes());
    assert!(rt; status == Ok(0));
    Ok(())
}

// Who reads the whole script first waits for ever.
#[test]
fn a_script_that_is_read_whole_gives_no_reply(rt: HostRuntime) -> Result<(), Fail> {
    let (text, status) = session(&rt, WHOLE, &LINES)?;
    assert!(rt; text.is_empty());
    assert!(rt; status == Err(ToolFault::Read));
    Ok(())
}

// A comment has no reply.
#[test]
fn each_reply_is_flushed(rt: HostRuntime) -> Result<(), Fail> {
    let alloc = rt.alloc();
    let answered = Cell::new(0);
    let mut screen = Screen {
        bytes: Vec::new(alloc),
        lens: Vec::new(alloc),
        answered: &answered,
    };
    let mut reader = "begin 0 0 1\n# a comment\nread 0 0 1 0 1\nabort 0 0\n".as_bytes();
    let areas = zero_areas(alloc, &ONE)?;
    run_script(alloc, ONE, WHOLE, areas, &mut reader, &mut screen)?;
    assert!(rt; screen.bytes.as_slice() == "ok\nbytes 00\nok\n".as_bytes());
    assert!(rt; screen.lens.as_slice() == [3, 12, 15].as_slice());
    Ok(())
}

// A reader that gives these bytes, one at a call, but for one call that fails.
#[derive(Drop)]
struct Failing<'a> {
    rest: &'a [u8],
    fails_at: usize,
    kind: ErrorKind,
}

impl Read for Failing<'_> {
    fn read(&mut self, buf: &mut [u8]) -> io::Result<usize> {
        if self.rest.len() == self.fails_at {
            self.fails_at = usize::MAX;
            return Err(Error::from(self.kind));
        }
        let (Some((first, rest)), Some(place)) = (self.rest.split_first(), buf.first_mut()) else {
            return Ok(0);
        };
        *place = *first;
        self.rest = rest;
        Ok(1)
    }
}

// A run of a script, given byte by byte, of which one read fails with so many bytes left, into a writer with so much
// room.
fn run_failing(
    rt: &impl AllocGlobal,
    fails_at: usize,
    kind: ErrorKind,
    room: usize,
) -> Result<Result<u8, ToolFault>, Fail> {
    let mut reader = Failing {
        rest: b"begin 0 0 1\nflush 0\n",
        fails_at,
        kind,
    };
    let areas = zero_areas(rt.alloc(), &ONE)?;
    let mut writer = Narrow { room };
    Ok(run_script(rt.alloc(), ONE, WHOLE, areas, &mut reader, &mut writer))
}

// With how many bytes left a read fails, and how; the writer's room; and what comes of it. No read comes with 21 bytes
// left, and the replies are `ok` and `nothing`.
static FAILING: [(usize, ErrorKind, usize, Result<u8, ToolFault>); 10] = [
    (20, ErrorKind::Interrupted, 64, Err(ToolFault::Read)),
    (8, ErrorKind::Interrupted, 64, Err(ToolFault::Read)),
    (8, ErrorKind::OutOfMemory, 64, Err(ToolFault::Read)),
    (8, ErrorKind::Other, 64, Err(ToolFault::Read)),
    (0, ErrorKind::Other, 64, Err(ToolFault::Read)),
    (21, ErrorKind::Other, 0, Err(ToolFault::Write)),
    (21, ErrorKind::Other, 2, Err(ToolFault::Write)),
    (21, ErrorKind::Other, 3, Err(ToolFault::Write)),
    (21, ErrorKind::Other, 10, Err(ToolFault::Write)),
    (21, ErrorKind::Other, 11, Ok(0)),
];

#[test]
fn a_reader_or_a_writer_that_fails(rt: HostRuntime) -> Result<(), Fail> {
    for (left, kind, room, wanted) in &FAILING {
        let row = format_args!("{kind:?} with {left} bytes left, room {room}");
        equal(&rt, &row, &run_failing(&rt, *left, *kind, *room)?, wanted);
    }
    Ok(())
}
