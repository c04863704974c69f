// What is printed. Where the standard error takes nothing, there is no place left to say so.
use crate::arguments::UsageError;
use std::io::{Cursor, Write};
use std::{io, str};
use verifier::Fault;

pub fn usage(errors: &impl Print, error: UsageError) {
    let _ = println!(errors; "{error}");
}

pub fn endless(errors: &impl Print) {
    let _ = errors.write_all(b"verify: the file does not end\n");
}

// An error as it is printed, without the number behind that std adds to the system's words.
fn reason(errors: &impl Print, error: &io::Error) -> io::Result<()> {
    let mut text = Cursor::new([0u8; 128]);
    let _ = write!(text, "{error}");
    let end = (text.position() as usize).min(128);
    let printed = str::from_utf8(&text.get_ref()[..end]).unwrap_or("");
    match printed.split_once(" (os error ") {
        Some((words, _)) => errors.print(words),
        None => errors.print(printed),
    }
}

fn failure(errors: &impl Print, path: &[u8], error: &io::Error) -> io::Result<()> {
    errors.write_all(path)?;
    errors.write_all(b": ")?;
    reason(errors, error)?;
    errors.write_all(b"\n")
}

// The file could not be opened or read.
pub fn unreadable(errors: &impl Print, path: &[u8], error: &io::Error) {
    let _ = failure(errors, path, error);
}

// The one line: accepted, or the first wrong entry and its kind of fault.
pub fn verdict(rt: &impl Print, count: u64, verdict: Result<(), Fault>) -> io::Result<()> {
    match verdict {
        Ok(()) => println!(rt; "accepted: {count} entries"),
        Err(fault) => println!(rt; "entry {count}: {fault}"),
    }
}
