//! Lines of a script.
ghost use Rattle.std.specs.Prelude.{◌≡◌, ◌<◌, [], ◌∷◌, length, replicate, option_map, IfOk, OnErr, IsTrue};
ghost use Rattle.lc_text.specs.Line.{words, Takes, thread_of, spot_of, thread_alone, segment_alone, alone, begin_of};
ghost use Rattle.lc_text.specs.Line.{range_of, write_of, read_of, deliver_of, page_alone, choice_of, is_skipped};
ghost use Rattle.lc_text.specs.Line.{stop_of, node_of, thread_command_of, node_command_of, store_command_of, shown_of};
ghost use Rattle.lc_text.specs.Line.{command_of, is_open_ended, line_of};

use crate::command::{Command, Line};
use crate::digits::pair;
use crate::fields::Fields;
use lc_disk::Choice;
use lc_model::Event;
use lc_record::Items;
use std::alloc::{AllocError, Global};

// The areas that a store may have: those of 8 logs and of 16 segments.
const MOST_AREAS: usize = 24;

/// A node and its thread.
#[tactic(auto, unfolding(crate::specs::Line::thread_of))]
fn thread(fields: &mut Fields) -> Option<(u16, u16)>
    ensures { Takes (thread_of (words fields.old.rest.now)) result fields.new.rest.now }
{
    let node = fields.u16()?;
    let thread = fields.u16()?;
    Some((node, thread))
}

/// A node, its thread, a segment and an offset in it.
#[tactic(auto, unfolding(crate::specs::Line::spot_of))]
fn spot(fields: &mut Fields) -> Option<(u16, u16, u32, u32)>
    ensures { Takes (spot_of (words fields.old.rest.now)) result fields.new.rest.now }
{
    let (node, thread) = thread(fields)?;
    let segment = fields.u32()?;
    let offset = fields.u32()?;
    Some((node, thread, segment, offset))
}

/// A node and its thread alone.
#[tactic(auto, unfolding(crate::specs::Line::thread_alone))]
fn lone_thread(mut fields: Fields) -> Option<(u16, u16)>
    ensures { result ≡ thread_alone (words fields.entry.rest.now) }
{
    let who = thread(&mut fields)?;
    fields.end()?;
    Some(who)
}

/// A node alone.
#[tactic(auto, unfolding(crate::specs::Line::node_of))]
fn lone_node(mut fields: Fields) -> Option<u16>
    ensures { result ≡ node_of (words fields.entry.rest.now) }
{
    let node = fields.u16()?;
    fields.end()?;
    Some(node)
}

/// A node and a segment alone.
#[tactic(auto, unfolding(crate::specs::Line::segment_alone))]
fn lone_segment(mut fields: Fields) -> Option<(u16, u32)>
    ensures { result ≡ segment_alone (words fields.entry.rest.now) }
{
    let node = fields.u16()?;
    let segment = fields.u32()?;
    fields.end()?;
    Some((node, segment))
}

#[tactic(auto, unfolding(crate::specs::Line::begin_of))]
fn begin(alloc: Global, mut fields: Fields) -> Result<Option<Command>, AllocError>
    ensures value { IfOk result (λ command. command ≡ begin_of (words fields.entry.rest.now)) }
    ensures memory { OnErr result (2 < length (words fields.entry.rest.now)) }
{
    let Some((node, thread)) = thread(&mut fields) else {
        return Ok(None);
    };
    let Some(locks) = fields.locks(alloc)? else {
        return Ok(None);
    };
    let (segments, reading) = locks;
    Ok(Some(Command::Step(Event::Begin {
        node,
        thread,
        segments: Items::new(segments),
        reading: Items::new(reading),
    })))
}

#[tactic(auto, unfolding(crate::specs::Line::range_of))]
fn range(mut fields: Fields) -> Option<Command>
    ensures { result ≡ range_of (words fields.entry.rest.now) }
{
    let (node, thread, segment, offset) = spot(&mut fields)?;
    let len = fields.u32()?;
    fields.end()?;
    Some(Command::Step(Event::SetRange {
        node,
        thread,
        segment,
        offset,
        len,
    }))
}

#[tactic(auto, unfolding(crate::specs::Line::write_of))]
fn write(alloc: Global, mut fields: Fields) -> Result<Option<Command>, AllocError>
    ensures value { IfOk result (λ command. command ≡ write_of (words fields.entry.rest.now)) }
    ensures memory { OnErr result (4 < length (words fields.entry.rest.now)) }
{
    let Some((node, thread, segment, offset)) = spot(&mut fields) else {
        return Ok(None);
    };
    let Some(bytes) = fields.bytes(alloc)? else {
        return Ok(None);
    };
    let Some(()) = fields.end() else {
        return Ok(None);
    };
    Ok(Some(Command::Step(Event::Write {
        node,
        thread,
        segment,
        offset,
        bytes: Items::new(bytes),
    })))
}

#[tactic(auto, unfolding(crate::specs::Line::read_of))]
fn read(mut fields: Fields) -> Option<Command>
    ensures { result ≡ read_of (words fields.entry.rest.now) }
{
    let (node, thread, segment, offset) = spot(&mut fields)?;
    let len = fields.u32()?;
    fields.end()?;
    Some(Command::Step(Event::Read {
        node,
        thread,
        segment,
        offset,
        len,
    }))
}

#[tactic(auto, unfolding(crate::specs::Line::deliver_of))]
fn deliver(mut fields: Fields) -> Option<Command>
    ensures { result ≡ deliver_of (words fields.entry.rest.now) }
{
    let sender = fields.u16()?;
    let number = fields.u64()?;
    let segment = fields.u32()?;
    let to = fields.u16()?;
    fields.end()?;
    Some(Command::Step(Event::Deliver {
        sender,
        number,
        segment,
        to,
    }))
}

/// A node, a segment and a page alone.
#[tactic(auto, unfolding(crate::specs::Line::page_alone))]
fn lone_page(mut fields: Fields) -> Option<(u16, u32, u32)>
    ensures { result ≡ page_alone (words fields.entry.rest.now) }
{
    let node = fields.u16()?;
    let segment = fields.u32()?;
    let page = fields.u32()?;
    fields.end()?;
    Some((node, segment, page))
}

/// What a thread is to do, by the first word.
#[tactic(auto, unfolding(crate::specs::Line::thread_command_of))]
fn thread_command(
    alloc: Global,
    keyword: &[u8],
    fields: Fields,
) -> Result<Option<Command>, AllocError>
    ensures value { IfOk result (λ command. command ≡ thread_command_of keyword.now (words fields.entry.rest.now)) }
    ensures memory { OnErr result (IsTrue (is_open_ended (keyword.now ∷ words fields.entry.rest.now))) }
{
    if keyword == b"begin".as_slice() {
        return begin(alloc, fields);
    }
    if keyword == b"range".as_slice() {
        return Ok(range(fields));
    }
    if keyword == b"write".as_slice() {
        return write(alloc, fields);
    }
    if keyword == b"read".as_slice() {
        return Ok(read(fields));
    }
    if keyword == b"abort".as_slice() {
        return Ok(lone_thread(fields).map(|(node, thread)| {
            Command::Step(Event::Abort { node, thread })
        }));
    }
    if keyword == b"reserve".as_slice() {
        return Ok(lone_thread(fields).map(|(node, thread)| {
            Command::Step(Event::Reserve { node, thread })
        }));
    }
    if keyword == b"close".as_slice() {
        return Ok(lone_thread(fields).map(|(node, thread)| {
            Command::Step(Event::Close { node, thread })
        }));
    }
    if keyword == b"end".as_slice() {
        return Ok(lone_thread(fields).map(|(node, thread)| Command::End { node, thread }));
    }
    Ok(None)
}

/// What a node is to do.
#[tactic(auto, unfolding(crate::specs::Line::node_command_of))]
fn node_command(keyword: &[u8], fields: Fields) -> Option<Command>
    ensures { result ≡ node_command_of keyword.now (words fields.entry.rest.now) }
{
    if keyword == b"step".as_slice() {
        return lone_node(fields).map(|node| Command::Step(Event::FlushStep { node }));
    }
    if keyword == b"flush".as_slice() {
        return lone_node(fields).map(|node| Command::Flush { node });
    }
    if keyword == b"truncate".as_slice() {
        return lone_node(fields).map(|node| Command::Truncate { node });
    }
    if keyword == b"leave".as_slice() {
        return lone_segment(fields).map(|(node, segment)| {
            Command::Step(Event::Leave { node, segment })
        });
    }
    if keyword == b"arrive".as_slice() {
        return lone_segment(fields).map(|(node, segment)| {
            Command::Step(Event::Arrive { node, segment })
        });
    }
    if keyword == b"deliver".as_slice() {
        return deliver(fields);
    }
    if keyword == b"trim".as_slice() {
        return lone_node(fields).map(|node| Command::Step(Event::Trim { node }));
    }
    if keyword == b"page".as_slice() {
        return lone_page(fields).map(|(node, segment, page)| {
            Command::Step(Event::PageStep {
                node,
                segment,
                page,
            })
        });
    }
    if keyword == b"reset".as_slice() {
        return lone_node(fields).map(|node| Command::Step(Event::ResetStep { node }));
    }
    None
}

/// What is found after a stop.
#[tactic(auto, unfolding(crate::specs::Line::choice_of))]
fn choice(word: &[u8]) -> Option<Choice>
    ensures { result ≡ choice_of word.now }
{
    if word == b"keep".as_slice() {
        return Some(Choice::Keep);
    }
    if word == b"stable".as_slice() {
        return Some(Choice::Stable);
    }
    match word {
        [high, low] => pair(*high, *low).map(Choice::Byte),
        _ => None,
    }
}

/// The same choice for each area that a store may have.
fn for_all_areas(alloc: Global, choice: Choice) -> Result<Vec<Items<Choice>>, AllocError>
    ensures { IfOk result (λ choices. choices.items ≡ replicate MOST_AREAS (choice ∷ [])) }
{
    let mut choices = Vec::new(alloc);
    for _ in 0..MOST_AREAS {
        choices.push(Items::new([choice].to_vec(alloc)?))?;
    }
    Ok(choices)
}

#[tactic(auto, unfolding(crate::specs::Line::stop_of))]
fn stop(alloc: Global, mut fields: Fields) -> Result<Option<Command>, AllocError>
    ensures value { IfOk result (λ command. command ≡ stop_of (words fields.entry.rest.now)) }
    ensures memory { OnErr result (0 < length (words fields.entry.rest.now)) }
{
    let Some(word) = fields.word() else {
        return Ok(None);
    };
    let Some(choice) = choice(word) else {
        return Ok(None);
    };
    let Some(()) = fields.end() else {
        return Ok(None);
    };
    Ok(Some(Command::Step(Event::Stop {
        choices: Items::new(for_all_areas(alloc, choice)?),
    })))
}

/// What the whole store is to do.
#[tactic(auto, unfolding(crate::specs::Line::store_command_of))]
fn store_command(
    alloc: Global,
    keyword: &[u8],
    fields: Fields,
) -> Result<Option<Command>, AllocError>
    ensures value { IfOk result (λ command. command ≡ store_command_of keyword.now (words fields.entry.rest.now)) }
    ensures memory { OnErr result (IsTrue (is_open_ended (keyword.now ∷ words fields.entry.rest.now))) }
{
    if keyword == b"stop".as_slice() {
        return stop(alloc, fields);
    }
    if keyword == b"rstep".as_slice() {
        return Ok(alone(fields, Command::Step(Event::RecoverStep)));
    }
    if keyword == b"recover".as_slice() {
        return Ok(alone(fields, Command::Recover));
    }
    Ok(None)
}

/// A command without fields.
fn alone(mut fields: Fields, command: Command) -> Option<Command>
    ensures { result ≡ alone command (words fields.entry.rest.now) }
{
    fields.end()?;
    Some(command)
}

/// What is to be shown.
#[tactic(auto, unfolding(crate::specs::Line::shown_of))]
fn shown(keyword: &[u8], fields: Fields) -> Option<Command>
    ensures { result ≡ shown_of keyword.now (words fields.entry.rest.now) }
{
    if keyword == b"log".as_slice() {
        return lone_node(fields).map(|node| Command::Log { node });
    }
    if keyword == b"inspect".as_slice() {
        return lone_node(fields).map(|node| Command::Inspect { node });
    }
    if keyword == b"show".as_slice() {
        return lone_page(fields).map(|(node, segment, page)| Command::Show {
            node,
            segment,
            page,
        });
    }
    None
}

/// What the words of a line ask for.
#[tactic(auto, unfolding(crate::specs::Line::command_of))]
fn command(alloc: Global, mut fields: Fields) -> Result<Option<Command>, AllocError>
    ensures value { IfOk result (λ command. command ≡ command_of (words fields.entry.rest.now)) }
    ensures memory { OnErr result (IsTrue (is_open_ended (words fields.entry.rest.now))) }
{
    let Some(keyword) = fields.word() else {
        return Ok(None);
    };
    if let Some(command) = thread_command(alloc, keyword, fields)? {
        return Ok(Some(command));
    }
    if let Some(command) = node_command(keyword, fields) {
        return Ok(Some(command));
    }
    if let Some(command) = store_command(alloc, keyword, fields)? {
        return Ok(Some(command));
    }
    Ok(shown(keyword, fields))
}

/// Whether a line is skipped: it is empty, or a comment.
pub fn is_skipped(line: &[u8]) -> bool
    ensures { result ≡ is_skipped line.now }
{
    matches!(line, [] | [b'#', ..])
}

/// What a line asks for, without what ends it. Only a `begin` with segments, a `write` with bytes and a `stop` take
/// memory.
#[tactic(auto, unfolding(crate::specs::Line::line_of))]
pub fn parse(alloc: Global, line: &[u8]) -> Result<Line, AllocError>
    ensures value { IfOk result (λ read. read ≡ line_of line.now) }
    ensures memory { OnErr result (IsTrue (is_open_ended (words line.now))) }
{
    if let [] | [b'#', ..] = line {
        return Ok(Line::Skipped);
    }
    match command(alloc, Fields::new(line))? {
        None => Ok(Line::NotUnderstood),
        Some(command) => Ok(Line::Command(command)),
    }
}
