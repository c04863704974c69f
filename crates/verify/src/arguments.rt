// What the program is called with: FILE VENDOR MODE.
ghost use Rattle.std.specs.Prelude.{◌≤◌, IfOk, IfSome, length};

use std::env::{Env, FillError};
use std::fmt;

// an argument of more bytes is none of ours
const LONGEST: usize = 16;

// What is wrong with the arguments, in the order in which it is looked for.
#[derive(Clone, Copy)]
pub enum UsageError {
    Count,
    File,
    Vendor,
    Mode,
}

impl fmt::Display for UsageError {
    fn fmt<W: fmt::Write>(&self, f: &mut fmt::Formatter<W>) -> fmt::Result {
        let words = match self {
            UsageError::Count => "usage: verify FILE VENDOR MODE",
            UsageError::File => "FILE is a path of at most 4096 bytes",
            UsageError::Vendor => "VENDOR is four hex digits",
            UsageError::Mode => "MODE is synchronized or overlap",
        };
        f.write_str(words)
    }
}

// The arguments; FILE's bytes stand at the front of a lent buffer.
#[derive(Clone, Copy)]
pub struct Arguments {
    pub length: usize,
    pub vendor: u16,
    pub overlap: bool,
}

// The value of a hex digit, upper case or lower case.
fn digit(b: u8) -> Option<u16>
    ensures { IfSome result (λ d. d ≤ 15) }
{
    match b {
        b'0'..=b'9' => Some(u16::from(b - b'0')),
        b'A'..=b'F' => Some(u16::from(b - b'A' + 10)),
        b'a'..=b'f' => Some(u16::from(b - b'a' + 10)),
        _ => None,
    }
}

// Four hex digits.
fn vendor_of(s: &[u8]) -> Option<u16> {
    let &[a, b, c, d] = s else {
        return None;
    };
    Some(((digit(a)? * 16 + digit(b)?) * 16 + digit(c)?) * 16 + digit(d)?)
}

// Whether the mode is overlap.
fn overlap_of(s: &[u8]) -> Option<bool> {
    match s {
        b"synchronized" => Some(false),
        b"overlap" => Some(true),
        _ => None,
    }
}

// Whether there is an argument of that number.
fn is_given(rt: &impl Env, number: usize) -> bool {
    let mut first = [0u8; 1];
    !matches!(rt.arg(number, &mut first), Err(FillError::NotPresent))
}

// How many of the bytes lent an argument takes. One that is missing or longer takes none.
fn argument(rt: &impl Env, number: usize, word: &mut [u8]) -> usize
    ensures { result ≤ length word.new }
{
    rt.arg(number, word).unwrap_or(0)
}

pub fn read(rt: &impl Env, path: &mut [u8]) -> Result<Arguments, UsageError>
    ensures { IfOk result (λ a. a.length ≤ length path.new) }
{
    if !is_given(rt, 3) || is_given(rt, 4) {
        return Err(UsageError::Count);
    }
    let Ok(length) = rt.arg(1, path) else {
        return Err(UsageError::File);
    };
    let mut word = [0u8; LONGEST];
    let n = argument(rt, 2, &mut word);
    let vendor = vendor_of(&word[..n]).ok_or(UsageError::Vendor)?;
    let n = argument(rt, 3, &mut word);
    let overlap = overlap_of(&word[..n]).ok_or(UsageError::Mode)?;
    Ok(Arguments {
        length,
        vendor,
        overlap,
    })
}
