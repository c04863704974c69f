// The sizes of the server: the one place in code, as `model/specs/Sizes.antt` is the one in definitions. `are_as_defined` ties the two.
ghost use Rattle.model.specs.Sizes.{before_first, clock_limit, connection_limit, list_limit, no_connection, output_minimum, payload_limit, session_limit, string_limit};
ghost use Rattle.state.specs.Layout.{STRINGS, WORDS};
ghost use Rattle.std.specs.Prelude.{◌≡◌};

use crate::layout;

pub const SESSION_LIMIT: usize = 32;

pub const CONNECTION_LIMIT: usize = 64;

pub const PAYLOAD_LIMIT: usize = 1024;

pub const STRING_LIMIT: usize = 256;

// 32 patterns, each of at most 128 bytes with a newline behind it
pub const LIST_LIMIT: usize = 4128;

pub const OUTPUT_MINIMUM: usize = 2048;

// the same as words
pub const SESSIONS: u64 = SESSION_LIMIT as u64;

pub const CONNECTIONS: u64 = CONNECTION_LIMIT as u64;

pub const PAYLOAD: u64 = PAYLOAD_LIMIT as u64;

// 2^62
pub const CLOCK_LIMIT: u64 = 4611686018427387904;

// stands for "no connection" where a connection's number is kept
// Kept: a number for none, as the definitions have it (no_connection in model/specs/Sizes.antt), and as the lent memory is compared with it.
pub const NO_CONNECTION: u64 = 255;

// fffffefe hex, the number before the first: the last message's where none acted
pub const BEFORE_FIRST: u64 = 4294967038;

// What the host lends: words for everything but lock strings and the text of the allowed commands, bytes for those.
pub const WORDS: usize = layout::WORDS;

pub const STRINGS: usize = layout::STRINGS;

pub type Words = [u64; WORDS];

pub type Strings = [u8; STRINGS];

// Nothing at run time: each size above is the one of that name in the definitions.
pub fn are_as_defined()
    ensures session_limit { SESSION_LIMIT ≡ session_limit }
    ensures connection_limit { CONNECTION_LIMIT ≡ connection_limit }
    ensures payload_limit { PAYLOAD_LIMIT ≡ payload_limit }
    ensures string_limit { STRING_LIMIT ≡ string_limit }
    ensures list_limit { LIST_LIMIT ≡ list_limit }
    ensures output_minimum { OUTPUT_MINIMUM ≡ output_minimum }
    ensures clock_limit { CLOCK_LIMIT ≡ clock_limit }
    ensures no_connection { NO_CONNECTION ≡ no_connection }
    ensures before_first { BEFORE_FIRST ≡ before_first }
{}

// How many words and bytes are lent.
pub fn words() -> u64
    ensures { result ≡ WORDS }
{
    WORDS as u64
}

pub fn string_bytes() -> u64
    ensures { result ≡ STRINGS }
{
    STRINGS as u64
}
