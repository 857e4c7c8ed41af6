// One pair of the search for the shortest message, or the source of all walks: whether it turns, how many of its slots may lead on by a symbol, what stands
// where one leads, the key of its entry of the queue, and how a pair is met.

#![tactic(auto)]

pub mod meeting;

ghost use Rattle.std.specs.Prelude.{◌≡◌, ◌≤◌, ◌<◌, length, get_or};
ghost use Rattle.pair_places.specs.Flat.{Laid, place_count, cell_count};
ghost use Rattle.pair_places.specs.Opens.{open_graph};
ghost use Rattle.pair_places.specs.Steps.{pair_cell};
ghost use Rattle.pair_storage.specs.Entries.{node_at, entries_in};
ghost use Rattle.pair_storage.specs.Marks.{marks};
ghost use Rattle.pair_slots.specs.Ensured.{key_of, Straight, TurnedBy, Seen};
ghost use Rattle.pair_slots.specs.Widths.{inner_of, width};

use code::Code;
use pair_places::Pair;
use std::ops::ControlFlow;

// Where a slot leads: to nothing new, to a pair that was not met before, or to a pair of two ends.
#[derive(Clone, Copy)]
pub enum Arrival {
    Passed,
    Fresh,
    Goal,
}

// How a message goes on: from the group that begins at an entry, by a symbol.
#[derive(Clone, Copy)]
pub struct Step {
    pub start: usize,
    pub symbol: usize,
}

// After a part of a group. Break: a goal comes next, by this symbol. Continue: how many entries the queue has.
pub type Progress = ControlFlow<usize, usize>;

// Behind what a pair goes on with any two words: the start, `Code::WORDS`, for the source, a word for its end with itself, if openings matter. None: it does not
// turn.
pub fn turning(places: &[u8], pair: Pair) -> Option<usize>
    requires { Laid places.now × (pair.high < place_count places.now) }
    ensures { TurnedBy places.now (pair_cell places.now pair) result }
{
    let low = pair.low;
    if pair_places::place_count(places) <= low {
        return Some(Code::WORDS);
    }
    if low == pair.high {
        if pair_places::is_end(places, low) {
            if pair_places::opens(places) {
                return Some(pair_places::owner(places, low));
            }
        }
    }
    None
}

// A place inside its word, if the pair is not two ends.
pub fn inner(places: &[u8], pair: Pair) -> usize
    requires { Laid places.now × (pair.low < place_count places.now) × (pair.high < place_count places.now) }
    ensures { (result ≡ inner_of places.now pair.low pair.high) × (result < place_count places.now) }
{
    if pair_places::is_end(places, pair.low) {
        return pair.high;
    }
    pair.low
}

// How many slots of a pair that does not turn may lead on by a symbol.
pub fn width(places: &[u8], pair: Pair, symbol: usize) -> usize
    requires { Laid places.now × Straight places.now pair }
    ensures { result ≡ width places.now (pair_cell places.now pair) symbol }
{
    let place = inner(places, pair);
    if places[place + 1] as usize == symbol {
        return pair_places::slots(places, pair.low, pair.high);
    }
    0
}

// Whether the places of a pair are ends of different words.
fn two_ends(places: &[u8], pair: Pair) -> bool
    requires { Laid places.now × (pair.low < place_count places.now) × (pair.high < place_count places.now) }
    ensures { result ≡ (open_graph places.now).goal (pair_cell places.now pair) }
{
    if pair.low == pair.high {
        return false;
    }
    if pair_places::is_end(places, pair.low) {
        return pair_places::is_end(places, pair.high);
    }
    false
}

// What stands where a slot leads, for a symbol.
pub fn look(places: &[u8], work: &[u64], pair: Pair, symbol: usize) -> Arrival
    requires { Laid places.now
        × (length (marks places.now work.now) ≡ cell_count places.now)
        × (pair.low ≤ place_count places.now)
        × (pair.high < place_count places.now) }
    ensures { Seen places.now (marks places.now work.now) (pair_cell places.now pair) symbol result }
{
    if pair_places::place_count(places) <= pair.low {
        return Arrival::Passed;
    }
    if pair_places::symbol(places, pair.high) != symbol {
        return Arrival::Passed;
    }
    if pair_storage::mark(places, work, pair) != 0 {
        return Arrival::Passed;
    }
    if two_ends(places, pair) {
        return Arrival::Goal;
    }
    Arrival::Fresh
}

// The group of entry `i` of the queue, as a number: where the group of its predecessor begins, and its symbol. An entry has a pair, or the source, and above it
// one more than where the group of its predecessor begins; 0 for the source.
pub fn key(places: &[u8], work: &[u64], i: usize) -> usize
    requires { Laid places.now × (i < length work.now) × (node_at (entries_in places.now work.now) i ≤ cell_count places.now) }
    ensures { result ≡ key_of places.now (get_or (entries_in places.now work.now) i 0) }
{
    let pair = pair_storage::pair_at(work, i);
    (pair_storage::above_at(work, i) << 4) + pair_places::symbol(places, pair.high)
}
