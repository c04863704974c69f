// The allowed commands. A list is a text, kept as the host gave it behind the lock strings; its length, plus 1, is a word, and 0 is no list.
ghost use Rattle.std.specs.Prelude.{ℕ, ◌+◌, ◌≤◌, drop, length, take, List, ◌≡◌};
ghost use Rattle.queue.specs.OneMemory.{is_set};
ghost use Rattle.model.specs.Allowing.{admits};
ghost use Rattle.model.specs.Sizes.{list_limit};
ghost use Rattle.model.specs.State.{Allowed.only, with_allowed};
ghost use Rattle.state.specs.Change.{on_rest};
ghost use Rattle.state.specs.Layout.{STRINGS, WORDS};
ghost use Rattle.state.specs.Tidy.{Tidy};
ghost use Rattle.state.specs.View.{allowed_of, memory, view};

use commands::allowing;
use queue::requests::least;
use shares::wiping::wipe;
use state::layout::{LIST, LISTED};
use state::sizes::{LIST_LIMIT, Strings, Words};

// Is a list set?
#[tactic(auto, using(crate::specs::Listing::set_read))]
pub fn is_set(w: &Words) -> bool
    ensures { (s : List ℕ) → is_set (allowed_of w.now s) ≡ result }
{
    w[LISTED] != 0
}

// Is the payload of a DataEND allowed? While no list is set that is one test.
#[tactic(auto, using(crate::specs::Listing::none_admits))]
pub fn is_allowed(w: &Words, strings: &Strings, payload: &[u8]) -> bool
    ensures { admits (allowed_of w.now strings.now) payload.now ≡ result }
{
    let listed = w[LISTED];
    if listed == 0 {
        return true;
    }
    let n = least(listed - 1, LIST_LIMIT);
    allowing::allowed(&strings[LIST..LIST + n], payload)
}

// A list in the place of the one before, of which nothing stays.
pub fn put_list(w: &mut Words, strings: &mut Strings, text: &[u8])
    requires { length text.now ≤ list_limit }
    ensures { (view (memory w.new strings.new) ≡ on_rest (view (memory w.old strings.old))
        (λ r. with_allowed r (only text.now))) × (Tidy (memory w.old strings.old) →
        Tidy (memory w.new strings.new)) }
{
    let n = least(w[LISTED], LIST_LIMIT);
    wipe(strings, LIST, n);
    wire::frame::put_bytes(strings, LIST, text);
    w[LISTED] = text.len() as u64 + 1;
}
