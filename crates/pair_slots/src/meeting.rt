// A pair where a slot leads is met: if it was not met before it is marked and queued. A pair that turns goes on with two words, which are met by their first
// pair.

ghost use Rattle.std.specs.Prelude.{◌≡◌, true, ◌+◌, ◌*◌, ◌≤◌, ◌<◌};
ghost use Rattle.code.specs.Definitions.Sheets.{limits};
ghost use Rattle.pair_places.specs.Flat.{Laid, may_come, word_count, place_count};
ghost use Rattle.pair_places.specs.Opens.{in_order, pair_behind};
ghost use Rattle.pair_places.specs.Steps.{pair_cell};
ghost use Rattle.pair_storage.specs.Entries.{entries_in};
ghost use Rattle.pair_storage.specs.Marks.{marks};
ghost use Rattle.pair_slots.specs.Ensured.{Space, Arrived};
ghost use Rattle.pair_slots.specs.Words.{leads_behind, least_behind};

use crate::{Arrival, Progress, Step, look};
use pair_places::Pair;
use pair_storage::store;
use std::ops::ControlFlow;

// Meets a pair where a step leads: if it was not met before it is marked and queued.
pub fn meet(places: &[u8], work: &mut [u64], step: Step, pair: Pair, tail: usize) -> Progress
    requires { Laid places.now
        × Space places.now (marks places.now work.old) work.old tail step.start
        × (pair.low ≤ place_count places.now)
        × (pair.high < place_count places.now) }
    ensures { Arrived places.now (marks places.now work.old) (entries_in places.now work.old)
        (marks places.now work.new) (entries_in places.now work.new)
        step.start step.symbol tail (pair_cell places.now pair) result }
{
    match look(places, work, pair, step.symbol) {
        Arrival::Passed => ControlFlow::Continue(tail),
        Arrival::Goal => ControlFlow::Break(step.symbol),
        Arrival::Fresh => {
            store(places, work, tail, step.start + 1, pair, 1);
            ControlFlow::Continue(tail + 1)
        }
    }
}

// Meets the first pair of words `x` and `z`, in order, if `z` may come behind `y`, as `x` may.
pub fn meet_words(
    places: &[u8],
    work: &mut [u64],
    step: Step,
    y: usize,
    x: usize,
    z: usize,
    tail: usize,
) -> Progress
    requires { Laid places.now × Space places.now (marks places.now work.old) work.old tail step.start × (y ≤ limits.words) × (may_come places.now x y ≡ true)
        × (in_order places.now x z ≡ true) × (z < word_count places.now) }
    ensures { Arrived places.now (marks places.now work.old) (entries_in places.now work.old)
        (marks places.now work.new) (entries_in places.now work.new)
        step.start step.symbol tail (pair_behind places.now y (x * limits.words + z)) result }
{
    if pair_places::may_come(places, z, y) {
        return meet(
            places,
            work,
            step,
            pair_places::first_pair(places, x, z),
            tail,
        );
    }
    ControlFlow::Continue(tail)
}

// Whether word `x` begins with the symbol and may come behind `y`.
pub fn leads(places: &[u8], symbol: usize, y: usize, x: usize) -> bool
    requires { Laid places.now × (x < limits.words) × (y ≤ limits.words) }
    ensures { result ≡ leads_behind places.now symbol y x }
{
    if pair_places::first_symbol(places, x) == symbol {
        return pair_places::may_come(places, x, y);
    }
    false
}

// The least word that stands in order behind `x`: the next one, or `x` itself where openings matter.
pub fn least_in_order(places: &[u8], x: usize) -> usize
    requires { Laid places.now × (x < limits.words) }
    ensures { (result ≡ least_behind places.now x) × (result ≤ limits.words) }
{
    if pair_places::opens(places) {
        return x;
    }
    x + 1
}
