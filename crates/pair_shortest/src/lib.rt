// The shortest message of a walk from a first pair of a code to a pair of two ends, the earliest in symbol order among equals.
//
// A breadth-first search in groups. The queue holds the pairs met, each once, behind the source of all walks; every entry knows where the
// group of its predecessor begins. A group is a run of entries with the same such group and the same symbol: pairs that are met by one
// message. Group after group, symbol after symbol, the search queues the pairs that come next, so messages ascend along the queue, and the
// first pair of two ends that comes next has the least. The message is then read off the entries, back to front. The marks of the pairs met
// and the queue stand in one list, which the caller lends.

#![tactic(auto)]

mod message;

ghost use Rattle.std.specs.Prelude.{◌≡◌, ◌+◌, ◌≤◌, ◌<◌, length};
ghost use Rattle.pair_places.specs.Flat.{Laid, pair_count};
ghost use Rattle.pair_places.specs.Opens.{open_graph};
ghost use Rattle.pair_places.specs.Roots.{Numbered};
ghost use Rattle.pair_storage.specs.Entries.{entries_in};
ghost use Rattle.pair_storage.specs.Marks.{marks};
ghost use Rattle.pair_groups.specs.Queue.{Between};
ghost use Rattle.code.specs.Laws.Exactly.{Exactly};
ghost use Rattle.pair_shortest.specs.Ensured.{Expanded, Explored, Seeded, Clear, Answers, SomeGoal};

use message::write;
use pair_groups::{Group, expand_group, group_end};
use pair_slots::Step;
use std::ops::ControlFlow;

// The rest of the queue, whose groups were not dealt with: entries `start` to `tail` - 1.
#[derive(Clone, Copy)]
struct Rest {
    start: usize,
    tail: usize,
}

// Deals with the group that starts the rest of the queue. Break: a goal comes next by a symbol. Continue: the rest of the queue.
fn advance(places: &[u8], work: &mut [u64], rest: Rest) -> ControlFlow<usize, Rest>
    requires { Laid places.now
        × Numbered places.now
        × (pair_count places.now + 2 ≤ length work.old)
        × (rest.start < rest.tail)
        × (rest.tail ≤ pair_count places.now + 1)
        × Between (open_graph places.now) (marks places.now work.old) (entries_in places.now work.old) rest.tail rest.start }
    ensures { Expanded places.now (marks places.now work.new) (entries_in places.now work.new) rest.start result }
{
    let group = Group {
        start: rest.start,
        end: group_end(places, work, rest.start, rest.tail),
    };
    let tail = expand_group(places, work, group, rest.tail)?;
    ControlFlow::Continue(Rest {
        start: group.end,
        tail,
    })
}

// Deals with group after group. The step to the first goal that comes next, if there is one.
fn explore(places: &[u8], work: &mut [u64]) -> Option<Step>
    requires { Laid places.now
        × Numbered places.now
        × (pair_count places.now + 2 ≤ length work.old)
        × Between (open_graph places.now) (marks places.now work.old) (entries_in places.now work.old) 1 0 }
    ensures { Explored places.now (entries_in places.now work.new) result }
{
    let mut rest = Rest { start: 0, tail: 1 };
    // A while: each group says where the next one starts, and the queue grows.
    while rest.start < rest.tail {
        match advance(places, work, rest) {
            ControlFlow::Break(symbol) => {
                return Some(Step {
                    start: rest.start,
                    symbol,
                });
            }
            ControlFlow::Continue(next) => rest = next,
        }
    }
    None
}

// Puts the source at the front of the queue. No mark changes.
fn seed(places: &[u8], work: &mut [u64])
    requires { Laid places.now × (0 < length work.old) }
    ensures { Seeded places.now (entries_in places.now work.new)
        × (marks places.now work.new ≡ marks places.now work.old) }
{
    pair_storage::set_entry(work, 0, 0, pair_places::no_pair(places));
}

// The length of the shortest message of a walk from a first pair to a pair of two ends, the earliest in symbol order among equals, if there is one; the
// message stands at the front of its buffer. No pair may be marked in the working list. What it holds at the end is of no use to the caller.
pub fn shortest(places: &[u8], work: &mut [u64], message: &mut [u8]) -> Option<usize>
    requires { Laid places.now
        × Numbered places.now
        × Clear places.now (marks places.now work.old)
        × (pair_count places.now + 2 ≤ length work.old)
        × (pair_count places.now ≤ length message.old) }
    ensures { Answers places.now message.old message.new result }
{
    seed(places, work);
    let step = explore(places, work)?;
    Some(write(places, work, message, step))
}

// Whether a walk leads from a first pair to a pair of two ends at all. No pair may be marked in the working list.
pub fn reaches_ends(places: &[u8], work: &mut [u64]) -> bool
    requires { Laid places.now
        × Numbered places.now
        × Clear places.now (marks places.now work.old)
        × (pair_count places.now + 2 ≤ length work.old) }
    ensures { Exactly result (SomeGoal (open_graph places.now)) }
{
    seed(places, work);
    explore(places, work).is_some()
}
