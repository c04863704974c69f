// The earliest deadline of those that wait, for a host that sleeps until it.
ghost use Rattle.std.specs.Prelude.{ℕ, List, ◌≡◌};
ghost use Rattle.model.specs.Asking.{earliest};
ghost use Rattle.state.specs.View.{locks_of};

use queue::requests;
use state::sizes::Words;

// The earliest deadline; 0 if nobody waits.
pub fn earliest_deadline(w: &Words) -> u64
    ensures { (s : List ℕ) → earliest (locks_of w.now s).waiting ≡ result }
{
    let n = requests::waiting_count(w);
    if n == 0 {
        return 0;
    }
    let first = requests::waiting_slot(w, 0);
    let mut best = requests::deadline_of(w, first);
    for j in 1..n {
        let x = requests::waiting_slot(w, j);
        best = best.min(requests::deadline_of(w, x));
    }
    best
}
