//! What clients ask, a line for each request.
use crate::input::LONGEST_LINE;
use lc_names::NameCommand;

/// What a client asks, with the verb that it asks by.
#[derive(Clone, Copy)]
pub(crate) struct Request<'a> {
    pub(crate) verb: &'a str,
    pub(crate) command: NameCommand<'a>,
}

/// The client whose number a line begins with, before a blank.
pub(crate) fn client_of(line: &[u8]) -> Option<usize> {
    match line {
        [digit @ b'0'..=b'7', b' ' | b'\t', ..] => Some(usize::from(*digit - b'0')),
        _ => None,
    }
}

/// The request of a line, after the number of its client.
pub(crate) fn request_of(line: &[u8]) -> Option<Request<'_>> {
    if client_of(line).is_none() || LONGEST_LINE < line.len() {
        return None;
    }
    let mut words = str::from_utf8(line).ok()?.split_ascii_whitespace().skip(1);
    let verb = words.next()?;
    let mut names = words.map(str::as_bytes);
    let command = match (verb, names.next(), names.next(), names.next()) {
        ("create", Some(name), text, None) => NameCommand::Create(name, text.unwrap_or(b"")),
        ("rename", Some(from), Some(to), None) => NameCommand::Rename(from, to),
        ("remove", Some(name), None, None) => NameCommand::Remove(name),
        ("find", Some(name), None, None) => NameCommand::Find(name),
        ("list", None, None, None) => NameCommand::List,
        _ => return None,
    };
    Some(Request { verb, command })
}
