// The list of allowed commands: judged, then kept.
ghost use Rattle.server.specs.Listing.{SetsList};
ghost use Rattle.state.specs.View.{memory};

use allowed::listing;
use commands::ListFault;
use commands::listing::judge;
use state::sizes::{Strings, Words};

// The numbers for a list that is refused.
const BAD_PATTERN: u64 = 11;

const TOO_MANY_PATTERNS: u64 = 12;

// What hislip_patterns answers the host: the refusal (0: none), and with refusal 11 the first bad pattern, from 0, and the place in it.
// Kept: a number for the refusal, since this is a struct of the C interface.
#[repr(C)]
#[derive(Clone, Copy)]
pub struct Listed {
    pub refusal: u64,
    pub pattern: u64,
    pub place: u64,
}

// The host sets the list of allowed commands: a text, each pattern ended by a newline, which the last one may lack. No bytes are the empty
// list, which allows nothing.
pub fn hislip_patterns(words: &mut Words, strings: &mut Strings, text: &[u8]) -> Listed
    ensures { SetsList text.now result (memory words.old strings.old) (memory words.new strings.new) }
{
    match judge(text) {
        Err(ListFault::TooMany) => Listed {
            refusal: TOO_MANY_PATTERNS,
            pattern: 0,
            place: 0,
        },
        Err(ListFault::BadPattern { pattern, place }) => Listed {
            refusal: BAD_PATTERN,
            pattern: pattern as u64,
            place: place as u64,
        },
        Ok(()) => {
            listing::put_list(words, strings, text);
            Listed {
                refusal: 0,
                pattern: 0,
                place: 0,
            }
        }
    }
}
