// The tables of the state, and its single values: one way to read and one to store a field, which is named by its place in the row.
// Reading: the word at its place; stored again it would change nothing. Storing: the row changes in that field, and nothing else does.
ghost use Rattle.std.specs.Prelude.{ℕ, ◌*◌, ◌+◌, ◌-◌, ◌<◌, ◌≤◌, ◌^◌, length, cond, List, ◌≡◌};
ghost use Rattle.model.specs.State.{at, connection_at, exchange_at};
ghost use Rattle.state.specs.Change.{connection_with, connection_word, entry_with, exchange_with, exchange_word, on_connection, on_entry, on_exchange, on_rest};
ghost use Rattle.state.specs.Change.{on_sensing, order_with, sensing_with, sensing_word, single_with, with_clock};
ghost use Rattle.state.specs.Ready.{is_ready};
ghost use Rattle.state.specs.Tidy.{ConnectionRange, ExchangeRange, OrderRange, SensingRange, SingleRange, Tidy};
ghost use Rattle.state.specs.View.{field_of, home_in, home_of, locks_of, memory, order_word, rest_of, row_word, view, word};
ghost use Rattle.model.specs.Sizes.{connection_limit, session_limit};
ghost use Rattle.state.specs.Layout.{WORDS};

use crate::layout::{
    CLOCK, CONNECTION, CONNECTIONS, ENTRIES, ENTRY, EXCHANGE, EXCHANGES, HOME, ORDER, ORDERS,
    SENSING, SENSINGS,
};
use crate::sizes;
use crate::sizes::{NO_CONNECTION, Words};
use crate::words::store;

// The fields of an exchange: in device clear, what is asked (plus 1), message available, the client's size; in overlap mode, the number of
// its next answer there, whether some answer was sent; whether an RMT is expected; the number that its next Data, DataEND or Trigger must
// carry.
pub const IN_CLEAR: usize = 0;

pub const ASKED: usize = 1;

pub const AVAILABLE: usize = 2;

pub const CLIENT_SIZE: usize = 3;

pub const OVERLAP: usize = 4;

pub const ANSWER_COUNT: usize = 5;

pub const ANY_SENT: usize = 6;

pub const RMT_EXPECTED: usize = 7;

pub const NUMBER_EXPECTED: usize = 8;

// The fields of a session's readings: its watch (its high limit's bits above its low limit's, each subtracted from ffffffff hex; 0: none),
// whether it has tripped, whether a reading was seen; the bits of the last, the lowest and the highest.
pub const WATCH: usize = 0;

pub const TRIPPED: usize = 1;

pub const SEEN: usize = 2;

pub const LAST_READING: usize = 3;

pub const LOWEST: usize = 4;

pub const HIGHEST: usize = 5;

// The fields of a connection: open, remainder to skip.
pub const IS_OPEN: usize = 0;

pub const REMAINDER: usize = 1;

// The fields of a slot of the table of sessions: its SessionID, its connections.
pub const NUMBER: usize = 0;

pub const SYNCHRONOUS: usize = 1;

pub const ASYNCHRONOUS: usize = 2;

// The fields of its order: the number of its last message, its release that stands (0: none; else, less 1: the number that it waits for,
// and above 32 bits which lock it frees); the clock reading of its last grant, the number of locks granted to it.
pub const LAST_NUMBER: usize = 0;

pub const STANDING: usize = 1;

pub const GRANTED_AT: usize = 2;

pub const GRANTS: usize = 3;

// The single values: the vendor number, the mode that the host prefers, the instrument's status byte, the SessionID issued last, the three remote/local flags.
pub const VENDOR: usize = 0;

pub const PREFERENCE: usize = 1;

pub const STATUS: usize = 2;

pub const LAST: usize = 3;

pub const ENABLE: usize = 4;

pub const LOCKOUT: usize = 5;

pub const REMOTE: usize = 6;

// The word of a flag.
pub fn word_of(on: bool) -> u64
    ensures { result ≡ cond on 1 0 }
{
    u64::from(on)
}

// A connection's number is below this.
const CONNECTION_NUMBERS: u64 = sizes::CONNECTIONS;

// What a session has asked and been sent.
#[tactic(auto, using(crate::specs::Change::exchange_read))]
pub fn exchange(w: &Words, i: usize, f: usize) -> u64
    requires { (i < session_limit) × (f < 9) }
    ensures { (exchange_with f result (exchange_at (rest_of w.now) i) ≡ exchange_at (rest_of w.now) i) × (result ≡ exchange_word w.now i f) }
{
    w[EXCHANGES + i * EXCHANGE + f]
}

#[tactic(auto, using(crate::specs::Change::exchange_stored, crate::specs::Keeping::exchange_tidy))]
pub fn set_exchange(w: &mut Words, i: usize, f: usize, v: u64)
    requires { (i < session_limit) × (f < 9) }
    ensures { ((s : List ℕ) → view (memory w.new s) ≡ on_exchange (view (memory w.old s)) i (exchange_with f v))
        × ((s : List ℕ) → ExchangeRange f v → Tidy (memory w.old s) → Tidy (memory w.new s)) }
{
    store(w, EXCHANGES + i * EXCHANGE + f, v);
}

// A session's readings.
pub fn sensing(w: &Words, i: usize, f: usize) -> u64
    requires { (i < session_limit) × (f < 6) }
    ensures { result ≡ sensing_word w.now i f }
{
    w[SENSINGS + i * SENSING + f]
}

#[tactic(auto, using(crate::specs::Change::sensing_stored, crate::specs::Keeping::sensing_tidy))]
pub fn set_sensing(w: &mut Words, i: usize, f: usize, v: u64)
    requires { (i < session_limit) × (f < 6) }
    ensures { ((s : List ℕ) → view (memory w.new s) ≡ on_sensing (view (memory w.old s)) i (sensing_with f v))
        × ((s : List ℕ) → SensingRange f v → Tidy (memory w.old s) → Tidy (memory w.new s)) }
{
    store(w, SENSINGS + i * SENSING + f, v);
}

// A connection.
#[tactic(auto, using(crate::specs::Change::connection_read))]
pub fn connection(w: &Words, i: usize, f: usize) -> u64
    requires { (i < connection_limit) × (f < 2) }
    ensures { (connection_with f result (connection_at (rest_of w.now) i) ≡ connection_at (rest_of w.now) i) × (result ≡ connection_word w.now i f) }
{
    w[CONNECTIONS + i * CONNECTION + f]
}

// Is a connection open?
pub fn is_open(w: &Words, i: usize) -> bool
    requires { i < connection_limit }
    ensures { (connection_at (rest_of w.now) i).is_open ≡ result }
{
    connection(w, i, IS_OPEN) % 2 == 1
}

// Is a connection open, with nothing to skip? One comparison asks both.
#[tactic(auto, using(crate::specs::Ready::ready, crate::specs::Ready::unready))]
pub fn is_ready(w: &Words, i: usize) -> bool
    requires { i < connection_limit }
    ensures { is_ready (connection_at (rest_of w.now) i) ≡ result }
{
    let open = connection(w, i, IS_OPEN) % 2;
    let left = connection(w, i, REMAINDER);
    left < open
}

#[tactic(auto, using(crate::specs::Change::connection_stored, crate::specs::Keeping::connection_tidy))]
pub fn set_connection(w: &mut Words, i: usize, f: usize, v: u64)
    requires { (i < connection_limit) × (f < 2) }
    ensures { ((s : List ℕ) → view (memory w.new s) ≡ on_connection (view (memory w.old s)) i (connection_with f v))
        × ((s : List ℕ) → ConnectionRange f v → Tidy (memory w.old s) → Tidy (memory w.new s)) }
{
    store(w, CONNECTIONS + i * CONNECTION + f, v);
}

// A word of a slot's row, as it stands.
pub fn row(w: &Words, i: usize, f: usize) -> u64
    requires { (i < session_limit) × (f < 3) }
    ensures { result ≡ row_word w.now i f }
{
    w[ENTRIES + i * ENTRY + f]
}

// The word of slot i's row that home h names: with h = i * 2 + f, word f, which is i + h behind the rows' start.
pub fn row_of_home(w: &Words, i: usize, h: u64) -> u64
    requires { (i < session_limit) × (i * 2 ≤ h) × (h < i * 2 + 3) }
    ensures { result ≡ row_word w.now i (h - i * 2) }
{
    w[ENTRIES + i + h as usize]
}

// The home of a connection: the slot and the place in its row that have it, as one number.
// Kept: the word itself, with 0 for none (the contract's home_of): one comparison with home_in confirms slot and place at once.
pub fn home(w: &Words, c: u64) -> u64
    requires { c < connection_limit }
    ensures { result ≡ home_of w.now c }
{
    w[CONNECTIONS + c as usize * CONNECTION + HOME]
}

pub fn home_in(i: usize, f: usize) -> u64
    requires { (i < session_limit) × (f < 3) }
    ensures { result ≡ home_in i f }
{
    (i * 2 + f) as u64
}

// A slot of the table of sessions: its SessionID; a connection only confirmed, that is if the slot is live and the connection's home.
// Kept: NO_CONNECTION stands for none in the definitions too, where the clause puts the result back into a session's entry (entry_with).
pub fn entry(w: &Words, i: usize, f: usize) -> u64
    requires { (i < session_limit) × (f < 3) }
    ensures { ((s : List ℕ) → entry_with f result (at (locks_of w.now s).entries i) ≡ at (locks_of w.now s).entries i) × (result ≡ field_of w.now i f) }
{
    let v = row(w, i, f);
    if f == NUMBER {
        return v;
    }
    if row(w, i, NUMBER) == 0 {
        return NO_CONNECTION;
    }
    if v >= CONNECTION_NUMBERS {
        return NO_CONNECTION;
    }
    if home(w, v) != home_in(i, f) {
        return NO_CONNECTION;
    }
    v
}

// The last message of a slot, the release that stands, and what was granted to it.
#[tactic(auto, using(crate::specs::Change::order_read))]
pub fn order(w: &Words, i: usize, f: usize) -> u64
    requires { (i < session_limit) × (f < 4) }
    ensures { ((s : List ℕ) → order_with f result (at (locks_of w.now s).entries i) ≡ at (locks_of w.now s).entries i) × (result ≡ order_word w.now i f) }
{
    w[ORDERS + i * ORDER + f]
}

#[tactic(auto, using(crate::specs::Change::order_stored, crate::specs::Keeping::order_tidy))]
pub fn set_order(w: &mut Words, i: usize, f: usize, v: u64)
    requires { (i < session_limit) × (f < 4) }
    ensures { ((s : List ℕ) → view (memory w.new s) ≡ on_entry (view (memory w.old s)) i (order_with f v))
        × ((s : List ℕ) → OrderRange f v → Tidy (memory w.old s) → Tidy (memory w.new s)) }
{
    store(w, ORDERS + i * ORDER + f, v);
}

// A single value; its place is its word.
#[tactic(auto, using(crate::specs::Change::single_read))]
pub fn single(w: &Words, f: usize) -> u64
    requires { f < 7 }
    ensures { (single_with f result (rest_of w.now) ≡ rest_of w.now) × (result ≡ word w.now f) }
{
    w[f]
}

#[tactic(auto, using(crate::specs::Change::single_stored, crate::specs::Keeping::value_tidy))]
pub fn set_single(w: &mut Words, f: usize, v: u64)
    requires { f < 7 }
    ensures { ((s : List ℕ) → view (memory w.new s) ≡ on_rest (view (memory w.old s)) (single_with f v))
        × ((s : List ℕ) → SingleRange f v → Tidy (memory w.old s) → Tidy (memory w.new s)) }
{
    store(w, f, v);
}

// A clock's word is read below 2^63, so that a deadline can be formed.
const CLOCK_RANGE: u64 = 9223372036854775808;

// The clock, in milliseconds.
#[tactic(auto, unfolding(crate::specs::View::locks_of))]
pub fn clock(w: &Words) -> u64
    ensures { (result < 9223372036854775808) × ((s : List ℕ) → result ≡ (locks_of w.now s).clock) }
{
    w[CLOCK] % CLOCK_RANGE
}

#[tactic(auto, using(crate::specs::Change::clock_stored, crate::specs::Keeping::clock_tidy))]
pub fn set_clock(w: &mut Words, t: u64)
    requires { t < 9223372036854775808 }
    ensures { ((s : List ℕ) → view (memory w.new s) ≡ with_clock (view (memory w.old s)) t)
        × ((s : List ℕ) → Tidy (memory w.old s) → Tidy (memory w.new s)) }
{
    store(w, CLOCK, t);
}
