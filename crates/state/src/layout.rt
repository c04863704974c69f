// Where each part of the server stands in the lent words and bytes: one part behind the other, each as long as its rows; docs/MEMORY.md
// draws it. A row's width stands beside it.
use crate::sizes::{CONNECTION_LIMIT, LIST_LIMIT, SESSION_LIMIT, STRING_LIMIT};

// a row for each slot: in device clear, what is asked (plus 1), message available, the client's size; in overlap mode, the number of its
// next answer there, whether some answer was sent; whether an RMT is expected; the number expected
pub const EXCHANGES: usize = 7;

pub const EXCHANGE: usize = 9;

// a row for each connection: open, remainder to skip, its home (the slot and the place in the slot's row that have it; 0: none)
pub const CONNECTIONS: usize = EXCHANGES + SESSION_LIMIT * EXCHANGE;

pub const CONNECTION: usize = 3;

// the place of the home in the row
// Kept: a number with 0 for none is the word of the lent memory, whose layout docs/MEMORY.md and specs/Layout.antt hold; place_of answers which slot it is.
pub const HOME: usize = 2;

// a row for each slot: its watch, whether it has tripped, whether a reading was seen, the last, the lowest, the highest
pub const SENSINGS: usize = CONNECTIONS + CONNECTION_LIMIT * CONNECTION;

pub const SENSING: usize = 6;

// the length of the text of the allowed commands, plus 1; 0: no list is set
// Kept: the word of the lent memory, as HOME is; no function hands it on.
pub const LISTED: usize = SENSINGS + SESSION_LIMIT * SENSING;

pub const CLOCK: usize = LISTED + 1;

// the slot of the exclusive holder, plus 1; 0 or a number past the slots: nobody
// Kept: the word of the lent memory, as HOME is; no function hands it on.
pub const HOLDER: usize = CLOCK + 1;

// bit i: slot i holds the shared lock
pub const SHARERS: usize = HOLDER + 1;

// the length of the shared string, less 1
pub const KEY: usize = SHARERS + 1;

// how many requests wait
pub const COUNT: usize = KEY + 1;

// a row for each slot: SessionID, synchronous and asynchronous connection
pub const ENTRIES: usize = COUNT + 1;

pub const ENTRY: usize = 3;

// a row for each slot: the number of its last message, its release that stands, the clock reading of its last grant, the number of locks
// granted to it
pub const ORDERS: usize = ENTRIES + SESSION_LIMIT * ENTRY;

pub const ORDER: usize = 4;

// a row for each slot: its request's deadline, the length of its string
pub const REQUESTS: usize = ORDERS + SESSION_LIMIT * ORDER;

pub const REQUEST: usize = 2;

// the slots that wait, oldest first
pub const QUEUE: usize = REQUESTS + SESSION_LIMIT * REQUEST;

// words to lend
pub const WORDS: usize = QUEUE + SESSION_LIMIT;

// the bytes: the shared string, then the string of each slot's request, then the text of the allowed commands
pub const LIST: usize = STRING_LIMIT + SESSION_LIMIT * STRING_LIMIT;

// bytes to lend
pub const STRINGS: usize = LIST + LIST_LIMIT;
