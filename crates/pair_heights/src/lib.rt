// A depth-first search over the pairs of a code that finds their heights, one transition at a time. Every pair has a mark and, while the
// search goes through its successors, an entry on the stack; both stand in the list that the caller lends. Each slot of a pair is looked up
// once: its height through the slots passed stands above the pair in its entry.

#![tactic(auto)]

ghost use Rattle.std.specs.Prelude.{◌≡◌, ◌-◌, ◌≤◌, ◌<◌};
ghost use Rattle.pair_storage.specs.Fields.{above_room, mark_room};
ghost use Rattle.pair_storage.specs.Entries.{entries_in};
ghost use Rattle.pair_storage.specs.Marks.{marks};
ghost use Rattle.pair_storage.specs.Stores.{Marked, mark_of};
ghost use Rattle.pair_heights.specs.Search.{finished_from, Top, Searching, Advanced};
ghost use Rattle.pair_heights.specs.Pass.{Passed};
ghost use Rattle.pair_heights.specs.Follow.{Following};
ghost use Rattle.pair_heights.specs.Pop.{Popping};

use code::Code;
use pair_places::Pair;

// The mark of a pair is 0 before the search meets it, 1 more than its next slot while it is on the stack, and `FINISHED` more than its
// height after that. A number, since it stands in a field of the list that the caller lends: memory is fixed.
#[derive(Clone, Copy)]
struct Mark {}

impl Mark {
    const FINISHED: usize = Code::WORDS + 2;
}

// The height of a finished pair, from its mark.
pub fn height_at(places: &[u8], work: &[u64], pair: Pair) -> usize
    requires { Marked places.now (marks places.now work.now) pair × (finished_from ≤ mark_of places.now (marks places.now work.now) pair) }
    ensures { (result ≡ mark_of places.now (marks places.now work.now) pair - finished_from) × (result < mark_room) }
{
    pair_storage::mark(places, work, pair) - Mark::FINISHED
}

// Passes the next slot of the pair on top, which leads to a finished pair. The height through that slot, one more than that pair's, is `through`.
fn pass(places: &[u8], work: &mut [u64], depth: usize, through: usize)
    requires { Top places.now (marks places.now work.old) (entries_in places.now work.old) depth × (through < above_room) }
    ensures { Passed (marks places.now work.old) (entries_in places.now work.old) depth through
        (marks places.now work.new) (entries_in places.now work.new) }
{
    let rest = depth - 1;
    let pair = pair_storage::pair_at(work, rest);
    let height = pair_storage::above_at(work, rest).max(through);
    let mark = pair_storage::mark(places, work, pair) + 1;
    pair_storage::store(places, work, rest, height, pair, mark);
}

// Follows the next slot of the pair on top: it is passed, or leads to a pair that is pushed. How many entries the stack has then; None, if a cycle is closed.
fn follow(places: &[u8], work: &mut [u64], depth: usize, pair: Pair, slot: usize) -> Option<usize>
    requires { Following places.now (marks places.now work.old) (entries_in places.now work.old) depth pair slot }
    ensures { Advanced places.now (marks places.now work.old) (marks places.now work.new) (entries_in places.now work.new) result }
{
    let next = pair_places::successor(places, pair.low, pair.high, slot);
    if pair_places::place_count(places) <= next.low {
        pair_storage::set_mark(places, work, pair, slot + 2);
        return Some(depth);
    }
    let met = pair_storage::mark(places, work, next);
    if met == 0 {
        pair_storage::store(places, work, depth, 0, next, 1);
        return Some(depth + 1);
    }
    if met < Mark::FINISHED {
        return None;
    }
    let through = met - Mark::FINISHED + 1;
    pass(places, work, depth, through);
    Some(depth)
}

// Finishes the pair on top, which has no slot left, and pops it; the pair below passes the slot that led to it. How many entries the stack has then.
fn pop(places: &[u8], work: &mut [u64], depth: usize, pair: Pair) -> Option<usize>
    requires { Popping places.now (marks places.now work.old) (entries_in places.now work.old) depth pair }
    ensures { Advanced places.now (marks places.now work.old) (marks places.now work.new) (entries_in places.now work.new) result }
{
    let rest = depth - 1;
    let height = pair_storage::above_at(work, rest);
    pair_storage::set_mark(places, work, pair, height + Mark::FINISHED);
    if rest == 0 {
        return Some(rest);
    }
    pass(places, work, rest, height + 1);
    Some(rest)
}

// One transition: the next slot of the pair on top is followed, or with no slot left the pair is popped. How many entries the stack has then; None, if a cycle is
// closed.
pub fn advance(places: &[u8], work: &mut [u64], depth: usize) -> Option<usize>
    requires { Searching places.now (marks places.now work.old) (entries_in places.now work.old) depth }
    ensures { Advanced places.now (marks places.now work.old) (marks places.now work.new) (entries_in places.now work.new) result }
{
    let pair = pair_storage::pair_at(work, depth - 1);
    let slot = pair_storage::mark(places, work, pair) - 1;
    if slot < pair_places::slots(places, pair.low, pair.high) {
        return follow(places, work, depth, pair, slot);
    }
    pop(places, work, depth, pair)
}
