//! What a command makes of a table of names.
ghost use Rattle.std.specs.Prelude.{IfOk, MatchResult, OnErr};
ghost use Rattle.lc_names.specs.Table.{IsTable};
ghost use Rattle.lc_names.specs.Answers.{Changes, Creates, Decides, IsUncreated, IsUnrenamed, Renames, WantsMemory};

use crate::name_entry::{ATTRIBUTES, ENTRY, LONGEST, NAME, NameEntry, entry_of, text_at};
use crate::table::{found, is_table, names_in, place_of};
use crate::{NameAnswer, NameCommand, NameFault};
use std::alloc::{AllocError, Global};

/// The place of an entry that changes, counted from 0, and the bytes that it gets.
pub(crate) type EntryChange = (usize, NameEntry);

/// What changes in the table, and what is answered.
pub(crate) type Decision = (Option<EntryChange>, Result<NameAnswer, NameFault>);

/// What a command makes of the bytes of a table, and what is answered.
///
/// # Errors
///
/// Where there is no memory for the answer: for the attributes of a name that is there, or for names.
pub(crate) fn decide(
    alloc: Global,
    table: &[u8],
    command: &NameCommand,
) -> Result<Decision, AllocError>
    ensures decides { IfOk result (Decides command.now table.now) }
    ensures memory { OnErr result (WantsMemory command.now table.now) }
{
    let entries = table.as_chunks().0;
    if !is_table(entries) {
        return Ok((None, Err(NameFault::NoTable)));
    }
    let change = match *command {
        NameCommand::Create(name, attributes) => create(entries, name, attributes),
        NameCommand::Rename(from, to) => rename(entries, from, to),
        NameCommand::Remove(name) => found(entries, name).map(|place| (place, [0; ENTRY])),
        NameCommand::Find(name) => match found(entries, name) {
            Ok(place) => {
                let found = Vec::from_slice(alloc, text_at(&entries[place], ATTRIBUTES))?;
                return Ok((None, Ok(NameAnswer::Attributes(found))));
            }
            Err(fault) => Err(fault),
        },
        NameCommand::List => return Ok((None, Ok(NameAnswer::Names(names_in(alloc, entries)?)))),
    };
    Ok((change.ok(), change.map(|_| NameAnswer::Done)))
}

// A new name gets the first free entry.
fn create(entries: &[NameEntry], name: &[u8], attributes: &[u8]) -> Result<EntryChange, NameFault>
    requires { IsTable entries.now }
    ensures { MatchResult result (Changes entries.now (Creates entries.now name.now attributes.now))
        (IsUncreated entries.now name.now attributes.now) }
{
    match place_of(entries, name)? {
        _ if LONGEST < attributes.len() => Err(NameFault::BadAttributes),
        Some(_) => Err(NameFault::Exists),
        None => {
            let free = entries.iter().position(|entry| entry[NAME] == 0);
            Ok((free.ok_or(NameFault::Full)?, entry_of(name, attributes)))
        }
    }
}

// The entry of a name gets another name.
fn rename(entries: &[NameEntry], from: &[u8], to: &[u8]) -> Result<EntryChange, NameFault>
    requires { IsTable entries.now }
    ensures { MatchResult result (Changes entries.now (Renames entries.now from.now to.now))
        (IsUnrenamed entries.now from.now to.now) }
{
    match (place_of(entries, to)?, found(entries, from)?) {
        (Some(_), _) => Err(NameFault::Exists),
        (None, place) => Ok((place, entry_of(to, text_at(&entries[place], ATTRIBUTES)))),
    }
}
