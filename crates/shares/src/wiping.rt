// What leaves is wiped: the bytes of a string, over its own length, and the words that go with it. Nobody sees it.
ghost use Rattle.std.specs.Prelude.{◌*◌, ◌+◌, ◌-◌, ◌<◌, ◌≤◌, ◌%◌, ◌^◌, min, length, set, ◌≡◌};
ghost use Rattle.model.specs.Sizes.{session_limit, string_limit};
ghost use Rattle.state.specs.Layout.{KEY, REQUEST, REQUESTS, SHARERS, STRINGS, WORDS};
ghost use Rattle.queue.specs.Requests.{Idle};
ghost use Rattle.state.specs.View.{memory, view, word};
ghost use Rattle.queue.specs.Wiping.{Wiped};

use queue::requests::{KEY_REST, least};
use state::layout::{KEY, REQUEST, REQUESTS};
use state::sizes::{STRING_LIMIT, Strings, Words};

// The n bytes from a place on become 0.
pub fn wipe(strings: &mut Strings, a: usize, n: usize)
    requires { a + n ≤ STRINGS }
    ensures { Wiped strings.old strings.new a n }
{
    strings[a..a + n].fill(0);
}

// The request of slot i, which does not wait.
pub fn wipe_request(w: &mut Words, strings: &mut Strings, i: usize)
    requires { (i < session_limit) × Idle w.old i }
    ensures { (w.new ≡ set (set w.old (REQUESTS + i * REQUEST + 0) 0) (REQUESTS + i * REQUEST + 1) 0)
        × Wiped strings.old strings.new (string_limit + i * string_limit)
        (min (word w.old (REQUESTS + i * REQUEST + 1)) string_limit) }
{
    let n = least(w[REQUESTS + i * REQUEST + 1], STRING_LIMIT);
    wipe(strings, STRING_LIMIT + i * STRING_LIMIT, n);
    w[REQUESTS + i * REQUEST + 0] = 0;
    w[REQUESTS + i * REQUEST + 1] = 0;
}

// The shared string, where nobody shares.
#[tactic(auto, using(queue::specs::Wiping::key_wiped))]
pub fn wipe_key(w: &mut Words, strings: &mut Strings)
    requires { word w.old SHARERS % 2 ^ session_limit ≡ 0 }
    ensures { (view (memory w.new strings.new) ≡ view (memory w.old strings.old))
        × (w.new ≡ set w.old KEY 0) × Wiped strings.old strings.new 0
        (min (word w.old KEY) (string_limit - 1) + 1) }
{
    let n = least(w[KEY], KEY_REST) + 1;
    wipe(strings, 0, n);
    w[KEY] = 0;
}
