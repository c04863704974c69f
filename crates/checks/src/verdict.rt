// What is to be done with a message: wait for more of it, hold it back, ignore it, close without reply, act, or answer FatalError or Error with
// a code.
#[derive(Clone, Copy, Debug, PartialEq, Eq)]
pub enum Verdict {
    More,
    Held,
    Ignored,
    Closed,
    Acts,
    Fatal(u8),
    Error(u8),
}

// Kept: the codes of FatalError and of Error, below, are the byte that the message carries; a verdict hands it on as it is.
// The codes of FatalError.
pub const POORLY_FORMED_HEADER: u8 = 1;

pub const CHANNELS_MISSING: u8 = 2;

pub const INVALID_INITIALIZATION: u8 = 3;

pub const TOO_MANY_SESSIONS: u8 = 4;

// The codes of Error.
pub const UNIDENTIFIED: u8 = 0;

pub const UNRECOGNISED_TYPE: u8 = 1;

pub const UNRECOGNISED_CODE: u8 = 2;

pub const UNRECOGNISED_VENDOR_TYPE: u8 = 3;

pub const TOO_LARGE: u8 = 4;

// A command that the list does not allow.
pub const NOT_ALLOWED: u8 = 128;
