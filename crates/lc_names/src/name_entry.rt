//! An entry of the table: a name and its attributes in 64 bytes.
ghost use Rattle.std.specs.Prelude.{◌≡◌, ◌≤◌, ◌<◌, length};
ghost use Rattle.lc_names.specs.NameEntry.{entry_of, IsName, text_at};

/// How many bytes an entry has.
pub(crate) const ENTRY: usize = 64;

/// How many bytes a name has at most, and attributes too.
pub(crate) const LONGEST: usize = 31;

/// Where the length of the name stands, and after it the name. It is 0 in an entry that is free.
pub(crate) const NAME: usize = 0;

/// Where the length of the attributes stands, and after it these.
pub(crate) const ATTRIBUTES: usize = 32;

/// The bytes of an entry.
pub(crate) type NameEntry = [u8; ENTRY];

/// The text after its length at a place, as far as there are bytes.
#[tactic(auto, using(std::proofs::lemmas::List::take_rest), unfolding(crate::specs::NameEntry::text_at))]
pub(crate) fn text_at(entry: &NameEntry, place: usize) -> &[u8]
    requires { place < ENTRY }
    ensures { result.now ≡ text_at place entry.now }
{
    let text = &entry[place + 1..];
    &text[..text.len().min(usize::from(entry[place]))]
}

/// The entry of a name with these attributes, filled up with zeros.
pub(crate) fn entry_of(name: &[u8], attributes: &[u8]) -> NameEntry
    requires name { IsName name.now }
    requires attributes { length attributes.now ≤ LONGEST }
    ensures { result ≡ entry_of name.now attributes.now }
{
    let mut entry = [0; ENTRY];
    entry[NAME] = name.len() as u8;
    entry[NAME + 1..NAME + 1 + name.len()].copy_from_slice(name);
    entry[ATTRIBUTES] = attributes.len() as u8;
    entry[ATTRIBUTES + 1..ATTRIBUTES + 1 + attributes.len()].copy_from_slice(attributes);
    entry
}
