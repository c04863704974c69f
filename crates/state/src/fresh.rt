// A fresh server: every word and every byte is written, whatever was there.
ghost use Rattle.model.specs.State.{fresh};
ghost use Rattle.state.specs.Fresh.{fresh_strings, fresh_words, unmade};
ghost use Rattle.state.specs.View.{memory, view};
ghost use Rattle.std.specs.Prelude.{◌*◌, ◌+◌, ◌<◌, set, ◌≡◌};
ghost use Rattle.model.specs.Sizes.{before_first, payload_limit, session_limit};
ghost use Rattle.wire.specs.MessageId.{start as first_number};

use crate::layout::{EXCHANGE, EXCHANGES, ORDER, ORDERS};
use crate::sizes::{BEFORE_FIRST, PAYLOAD, SESSION_LIMIT, Strings, Words};
use crate::tables::{ANSWER_COUNT, CLIENT_SIZE, LAST_NUMBER, NUMBER_EXPECTED, PREFERENCE, VENDOR};
use wire::message_id::MessageId;

// The number of a session's first answer in overlap mode, and of its first message.
pub const START: u64 = MessageId::START as u64;

// The words of slot i that begin otherwise than with 0: the client's size, the count and the number expected; and no message acted.
fn start_slot(w: &mut Words, i: usize)
    requires { i < session_limit }
    ensures { w.new
        ≡ set (set (set (set w.old (EXCHANGES + i * EXCHANGE + 3) payload_limit) (EXCHANGES + i * EXCHANGE + 5) first_number)
        (EXCHANGES + i * EXCHANGE + 8) first_number) (ORDERS + i * ORDER + 0) before_first }
{
    let exchange = EXCHANGES + i * EXCHANGE;
    w[exchange + CLIENT_SIZE] = PAYLOAD;
    w[exchange + ANSWER_COUNT] = START;
    w[exchange + NUMBER_EXPECTED] = START;
    w[ORDERS + i * ORDER + LAST_NUMBER] = BEFORE_FIRST;
}

#[tactic(auto, using(crate::specs::Fresh::all_started), unfolding(crate::specs::Fresh::started))]
fn put_words(w: &mut Words)
    ensures { w.new ≡ fresh_words unmade }
{
    w.fill(0);
    for i in 0..SESSION_LIMIT {
        start_slot(w, i);
    }
}

// Makes a fresh server in the lent memory, which prefers overlap mode or not.
pub fn start(w: &mut Words, strings: &mut Strings, vendor: u16, overlap: bool)
    ensures { (w.new ≡ fresh_words (record { vendor = vendor; prefers_overlap = overlap })) × (strings.new ≡ fresh_strings)
        × (view (memory w.new strings.new) ≡ fresh (record { vendor = vendor; prefers_overlap = overlap })) }
{
    put_words(w);
    w[VENDOR] = u64::from(vendor);
    w[PREFERENCE] = u64::from(overlap);
    strings.fill(0);
}
