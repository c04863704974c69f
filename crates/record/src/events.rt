// The events that a body may have, each under its tag, from 0 on. Rows of bytes are lent from the body.

// A delivery looks at no more than the first 1,040 unread bytes; of bytes shown with an answer only the first 16 count.
pub const MOST_DELIVERED: usize = 1040;

pub const MOST_SHOWN: usize = 16;

#[derive(Clone, Copy)]
pub enum Event<'a> {
    Opening {
        connection: u32,
    },
    Delivery {
        connection: u32,
        bytes: &'a [u8],
    },
    Cut {
        connection: u32,
    },
    Clock {
        milliseconds: u64,
    },
    Answer {
        session: u32,
        end: bool,
        payload: &'a [u8],
        shown: &'a [u8],
    },
    Status {
        byte: u8,
    },
    WatchOff {
        session: u32,
    },
    WatchAbove {
        session: u32,
        limit: u32,
    },
    WatchOutside {
        session: u32,
        low: u32,
        high: u32,
    },
    Patterns {
        text: &'a [u8],
    },
}
