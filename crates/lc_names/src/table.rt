//! The table of names: whole entries, one after another.
ghost use Rattle.std.specs.Prelude.{◌≡◌, ◌<◌, ◌↔◌, ℕ, length, map, IfOk, IsTrue, MatchOption, MatchResult, OnErr};
ghost use Rattle.std.specs.Global.{Vec as Items};
ghost use Rattle.lc_names.specs.Table.{HasNames, IsAbsent, IsNoName, IsPlaceOf, IsSoundAt, IsTable, IsUnplaced};
ghost use Rattle.lc_names.specs.Table.{names_in};

use crate::NameFault;
use crate::name_entry::{ATTRIBUTES, LONGEST, NAME, NameEntry, text_at};
use std::alloc::{AllocError, Global};

/// Whether the entries are a table.
pub(crate) fn is_table(entries: &[NameEntry]) -> bool
    ensures { IsTrue result ↔ IsTable entries.now }
{
    (0..entries.len()).all(|place| is_sound_at(entries, place))
}

// Whether the entry at a place is free, or its lengths fit and no entry in front has its name.
fn is_sound_at(entries: &[NameEntry], place: usize) -> bool
    requires { place < length entries.now }
    ensures { IsTrue result ↔ IsSoundAt entries.now place }
{
    let entry = &entries[place];
    let longest = entry[NAME].max(entry[ATTRIBUTES]);
    entry[NAME] == 0
        || usize::from(longest) <= LONGEST && found(entries, text_at(entry, NAME)) == Ok(place)
}

/// The place of a name, counted from 0, or `BadName` where it is none.
pub(crate) fn place_of(entries: &[NameEntry], name: &[u8]) -> Result<Option<usize>, NameFault>
    ensures { MatchResult result (λ place.
        MatchOption place (IsAbsent name.now entries.now) (IsPlaceOf name.now entries.now)) (IsNoName name.now) }
{
    if name.is_empty() || LONGEST < name.len() {
        return Err(NameFault::BadName);
    }
    let is_named = |entry: &NameEntry| text_at(entry, NAME) == name;
    Ok(entries.iter().position(is_named))
}

/// The place of a name that is there.
pub(crate) fn found(entries: &[NameEntry], name: &[u8]) -> Result<usize, NameFault>
    ensures { MatchResult result (IsPlaceOf name.now entries.now) (IsUnplaced name.now entries.now) }
{
    place_of(entries, name)?.ok_or(NameFault::NoName)
}

/// The names in use, in the order of the table. It takes memory only where there is one.
#[tactic(auto, unfolding(crate::specs::NameEntry::is_used))]
pub(crate) fn names_in(alloc: Global, entries: &[NameEntry]) -> Result<Vec<Vec<u8>>, AllocError>
    ensures names { IfOk result (λ names. map (λ (name : Items ℕ). name.items) names.items ≡ names_in entries.now) }
    ensures memory { OnErr result (HasNames entries.now) }
{
    let mut names = Vec::new(alloc);
    for entry in entries {
        if entry[NAME] > 0 {
            names.push(Vec::from_slice(alloc, text_at(entry, NAME))?)?;
        }
    }
    Ok(names)
}
