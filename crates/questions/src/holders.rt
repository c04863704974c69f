// Who holds what, since when: rows by value, and in a list that the host lends. Nothing is changed by it.
ghost use Rattle.std.specs.Prelude.{ℕ, ◌+◌, ◌<◌, ◌≤◌, drop, length, take, List, ◌++◌, ◌≡◌};
ghost use Rattle.model.specs.Holders.{holders_answer, list_filled, put_by, row_of};
ghost use Rattle.model.specs.Sizes.{session_limit};
ghost use Rattle.model.specs.State.{at};
ghost use Rattle.questions.specs.Holders.{Tells, as_row, counted_of, listed, one_row, row_key, rows_in};
ghost use Rattle.state.specs.View.{locks_of, memory, view};

use holding::info;
use sessions::refusal::Refusal;
use state::sizes::{SESSION_LIMIT, Strings, Words};
use state::{holders as kept, tables};

// A holding session: its SessionID, whether it holds exclusive and whether shared (1 or 0), the clock reading of its last grant, the number
// of locks granted to it.
// Kept: numbers for what is held, and for a refusal in Counted, since these are structs of the C interface.
#[repr(C)]
#[derive(Clone, Copy)]
pub struct Row {
    pub session: u64,
    pub exclusive: u64,
    pub shared: u64,
    pub granted_at: u64,
    pub grants: u64,
}

// The refusal (0: none), and how many rows were written.
#[repr(C)]
#[derive(Drop)]
pub struct Counted {
    pub refusal: u64,
    pub rows: u64,
}

// Some rows: the first `count` of 32.
// Kept: two open fields and no model. The rows go into the host's list by one copy of the first `count`, and `listed` says in one line what
// the two hold.
#[derive(Drop)]
pub struct Panel {
    pub rows: [Row; 32],
    pub count: usize,
}

// The row of slot i.
fn row_at(w: &Words, i: usize) -> Row
    requires { i < session_limit }
    ensures { (s : List ℕ) → result ≡ as_row (row_of (at (locks_of w.now s).entries i)) }
{
    let session = tables::entry(w, i, tables::NUMBER);
    let exclusive = tables::word_of(kept::is_exclusive(w, i));
    let shared = tables::word_of(kept::is_sharing(w, i));
    let granted_at = tables::order(w, i, tables::GRANTED_AT);
    let grants = tables::order(w, i, tables::GRANTS);
    Row {
        session,
        exclusive,
        shared,
        granted_at,
        grants,
    }
}

// A row put into the first n rows: the lower SessionID goes first, the higher is carried on.
fn put_in(rows: [Row; 32], n: usize, r: Row) -> [Row; 32]
    requires { n < 32 }
    ensures { take (n + 1) result ≡ put_by row_key r (take n rows) }
{
    let mut out = rows;
    let mut carried = r;
    for i in 0..n {
        let x = out[i];
        if carried.session < x.session {
            out[i] = carried;
            carried = x;
        }
    }
    out[n] = carried;
    out
}

// A row more.
fn put(old: Panel, r: Row) -> Panel
    requires { old.count < 32 }
    ensures { (listed result ≡ put_by row_key r (listed old)) × (result.count ≡ old.count + 1) }
{
    let n = old.count;
    let rows = old.rows;
    let out = put_in(rows, n, r);
    Panel {
        rows: out,
        count: n + 1,
    }
}

fn nobody() -> Panel
    ensures { result.count ≡ 0 }
{
    let none = Row {
        session: 0,
        exclusive: 0,
        shared: 0,
        granted_at: 0,
        grants: 0,
    };
    Panel {
        rows: [none; 32],
        count: 0,
    }
}

// The row of slot i too, if it holds a lock.
fn with_slot(w: &Words, old: Panel, i: usize) -> Panel
    requires { (i < session_limit) × (old.count < 32) × (length (listed old) ≡ old.count) }
    ensures { (result.count ≤ old.count + 1) × (length (listed result) ≡ result.count) × ((s : List ℕ) → listed result ≡ one_row (at (locks_of w.now s).entries i) (listed old)) }
{
    if info::holds_any(w, i) {
        return put(old, row_at(w, i));
    }
    old
}

// The rows of all sessions that hold a lock.
pub fn holders(w: &Words) -> Panel
    ensures { (result.count ≤ 32) × (length (listed result) ≡ result.count) × ((s : List ℕ) → listed result ≡ rows_in (view (memory w.now s))) }
{
    let mut panel = nobody();
    for i in (0..SESSION_LIMIT).rev() {
        panel = with_slot(w, panel, i);
    }
    panel
}

// What is to be done with a list of `room` rows: the answer, and how many of these rows are written.
// Kept: the count stands beside the rows, so that a refused list, too, is written by the one copy, of no rows.
#[derive(Drop)]
pub struct Filling {
    pub rows: [Row; 32],
    pub count: usize,
    pub answer: Counted,
}

pub fn told(w: &Words, s: &Strings, room: usize) -> Filling
    ensures { Tells (view (memory w.now s.now)) room result }
{
    let panel = holders(w);
    let n = panel.count;
    let rows = panel.rows;
    if room < n {
        return Filling {
            rows,
            count: 0,
            answer: Counted {
                refusal: Refusal::ListTooShort as u64,
                rows: 0,
            },
        };
    }
    Filling {
        rows,
        count: n,
        answer: Counted {
            refusal: 0,
            rows: n as u64,
        },
    }
}

// The first n rows of src into the slice that is lent.
pub fn fill_slice(rows: &mut [Row], src: [Row; 32], n: usize)
    requires { (n ≤ 32) × (n ≤ length rows.old) }
    ensures { rows.new ≡ take n src ++ drop n rows.old }
{
    rows[..n].copy_from_slice(&src[..n]);
}

// Who holds what, since when, in the list that the host lends: ascending by SessionID; further rows are untouched.
pub fn hislip_holders(words: &Words, strings: &Strings, rows: &mut [Row]) -> Counted
    ensures { (result ≡ counted_of (holders_answer (view (memory words.now strings.now)) (length rows.old)))
        × (rows.new ≡ list_filled (rows_in (view (memory words.now strings.now))) rows.old) }
{
    let room = rows.len();
    let t = told(words, strings, room);
    let src = t.rows;
    let n = t.count;
    fill_slice(rows, src, n);
    t.answer
}
