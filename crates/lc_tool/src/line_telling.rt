//! What is said of a line that is not understood.

use crate::line_list::LINE_LIST;
use lc_look::Silent;

// A longer line is cut after so many bytes.
const SHOWN: usize = 80;

// So many bytes of a row of the list stand in front of its sentence.
const FORM: usize = 19;

/// Is told of a line that is not understood.
pub(crate) trait LineTeller {
    /// Its number, from 1, and its bytes without their end.
    fn not_understood(&self, number: u64, line: &[u8]);
}

impl LineTeller for Silent {
    fn not_understood(&self, _number: u64, _line: &[u8]) {}
}

/// Says on standard error which line it is, and the form of its command.
pub(crate) fn tell_line<R: Eprint>(rt: &R, number: u64, line: &[u8]) {
    let shown = shown_of(line);
    let _ = match form_of(shown) {
        Some(form) => eprintln!(rt; "lcrvm: line {number}: {shown}: {form} is wanted"),
        None => eprintln!(rt;
            "lcrvm: line {number}: {shown}: no such line; lcrvm lines lists them"
        ),
    };
}

// The line as it can be shown.
fn shown_of(line: &[u8]) -> &str {
    let Ok(text) = str::from_utf8(line) else {
        return "(no text)";
    };
    if !text.chars().all(is_shown) {
        return "(no text)";
    }
    match text.split_at_checked(SHOWN) {
        Some((front, _)) => front,
        None => text,
    }
}

fn is_shown(letter: char) -> bool {
    letter == ' ' || letter.is_ascii_graphic()
}

// The form that a line of this command has.
fn form_of(line: &str) -> Option<&'static str> {
    let command = first_word(line);
    for row in LINE_LIST.lines() {
        if row.is_empty() {
            return None;
        }
        if first_word(row) == command {
            return form_in(row);
        }
    }
    None
}

// What stands in a row of the list in front of its sentence.
fn form_in(row: &str) -> Option<&str> {
    let (form, _) = row.split_at_checked(FORM)?;
    Some(form.trim_end())
}

fn first_word(line: &str) -> &str {
    let line = line.trim_start();
    match line.split_once(' ') {
        Some((word, _)) => word,
        None => line,
    }
}
