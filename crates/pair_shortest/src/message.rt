// The message of a group, read off the entries back to front.

ghost use Rattle.std.specs.Prelude.{◌+◌, ◌≤◌, ◌<◌, length};
ghost use Rattle.pair_places.specs.Flat.{Laid, pair_count};
ghost use Rattle.pair_places.specs.Opens.{open_graph};
ghost use Rattle.pair_storage.specs.Entries.{entries_in, links};
ghost use Rattle.pair_groups.specs.Ensured.{Known, GoalNext};
ghost use Rattle.pair_shortest.specs.Ensured.{Message};
ghost use Rattle.pair_shortest.specs.Spelling.{Spelled, Stored};
ghost use Rattle.pair_shortest.specs.Depth.{HasDepth, Depth};

use pair_slots::Step;
use pair_storage::{above_at, pair_at};

// How many steps, each to where the group of the predecessor begins, lead from an entry to the source.
fn depth(work: &[u64], start: usize) -> usize
    requires { HasDepth (links work.now) start × (start < length work.now) }
    ensures { Depth (links work.now) start result × (result ≤ start) }
{
    let mut index = start;
    let mut count: usize = 0;
    // A while: it follows the entries back to the source.
    while 0 < index {
        index = above_at(work, index) - 1;
        count += 1;
    }
    count
}

// Writes the label of an entry, of `count` symbols, to the front of the message, the last symbol first.
fn fill(places: &[u8], work: &[u64], message: &mut [u8], start: usize, count: usize)
    requires { Laid places.now
        × Spelled (open_graph places.now) (entries_in places.now work.now) start count
        × Known places.now (entries_in places.now work.now) (start + 1)
        × (start < length work.now)
        × (count ≤ length message.old) }
    ensures { Stored (open_graph places.now) (entries_in places.now work.now)
        start count message.old message.new }
{
    let mut index = start;
    let mut at = count;
    // A while: it follows the entries back to the source.
    while 0 < index {
        at -= 1;
        message[at] = places[pair_at(work, index).high];
        index = above_at(work, index) - 1;
    }
}

// Writes the label of a group and the symbol of the step from there.
pub fn write(places: &[u8], work: &[u64], message: &mut [u8], step: Step) -> usize
    requires { Laid places.now
        × GoalNext places.now (entries_in places.now work.now) step.start step.symbol
        × (pair_count places.now + 2 ≤ length work.now)
        × (pair_count places.now ≤ length message.old) }
    ensures { Message places.now message.old message.new result }
{
    let count = depth(work, step.start);
    message[count] = step.symbol as u8;
    fill(places, work, message, step.start, count);
    count + 1
}
