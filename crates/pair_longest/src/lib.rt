// The longest walk over the pairs of a code, from which its delay follows: a depth-first search from each first pair of two words in turn,
// over the same marks and the same stack, which stand in one list.

#![tactic(auto)]

ghost use Rattle.std.specs.Prelude.{◌+◌, ◌≤◌, ◌<◌, length};
ghost use Rattle.code.specs.Definitions.Sheets.{limits};
ghost use Rattle.pair_places.specs.Steps.{pair_cell};
ghost use Rattle.pair_places.specs.Flat.{cell_count};
ghost use Rattle.pair_storage.specs.Entries.{entries_in};
ghost use Rattle.pair_storage.specs.Marks.{marks};
ghost use Rattle.pair_storage.specs.Stores.{Marked, Stored};
ghost use Rattle.pair_longest.specs.Explore.{AtRoot, Running, Explored};
ghost use Rattle.pair_longest.specs.Answer.{Answer};
ghost use Rattle.pair_longest.specs.Visit.{Counting, Visiting};
ghost use Rattle.pair_longest.specs.Extents.{Given, ExtentOf};

use pair_heights::{advance, height_at};
use pair_places::Pair;

// Puts a root on the empty stack.
fn start(places: &[u8], work: &mut [u64], root: Pair)
    requires { Marked places.now (marks places.now work.old) root × (0 < length work.old) }
    ensures { Stored places.now work.old 0 0 root 1 work.new }
{
    pair_storage::store(places, work, 0, 0, root, 1);
}

// Searches from a root, which alone is on the stack: how many symbols the longest walk from it reads, if there is a longest.
fn run(places: &[u8], work: &mut [u64], root: Pair) -> Option<usize>
    requires { Running places.now (marks places.now work.old) (entries_in places.now work.old) root 1 }
    ensures { Answer places.now (Explored places.now (pair_cell places.now root) (marks places.now work.new)) result }
{
    let mut depth: usize = 1;
    // A while: the stack grows and shrinks until it is empty.
    while 0 < depth {
        depth = advance(places, work, depth)?;
    }
    Some(height_at(places, work, root) + 1)
}

// How many symbols the longest walk from a root reads; a root that an earlier search met is finished.
fn explore(places: &[u8], work: &mut [u64], first: Pair) -> Option<usize>
    requires { AtRoot places.now (marks places.now work.old) work.old first }
    ensures { Answer places.now (Explored places.now (pair_cell places.now first) (marks places.now work.new)) result }
{
    if pair_storage::mark(places, work, first) == 0 {
        start(places, work, first);
        return run(places, work, first);
    }
    Some(height_at(places, work, first) + 1)
}

// Counts the first pair of words `x` and `y`, after those whose longest walk reads `most` symbols.
fn visit(places: &[u8], work: &mut [u64], x: usize, y: usize, most: usize) -> Option<usize>
    requires { Visiting places.now (marks places.now work.old) work.old x y most }
    ensures { Answer places.now (Counting places.now (marks places.now work.new) x (y + 1)) result }
{
    let first = pair_rivals::rival_pair(places, x, y);
    if pair_places::place_count(places) <= first.low {
        return Some(most);
    }
    let count = explore(places, work, first)?;
    Some(most.max(count))
}

// Counts the first pairs of word `x` and each word after it.
fn row(places: &[u8], work: &mut [u64], x: usize, before: usize) -> Option<usize>
    requires { Counting places.now (marks places.now work.old) x (x + 1) before × (x < limits.words) × (cell_count places.now ≤ length work.old) }
    ensures { Answer places.now (Counting places.now (marks places.now work.new) (x + 1) (x + 1 + 1)) result }
{
    let mut most = before;
    for y in x + 1..pair_places::word_count(places) {
        most = visit(places, work, x, y, most)?;
    }
    Some(most)
}

// How many symbols the longest walk over the pairs of a code reads, the first pairs being its roots. None: there are walks of every length.
pub fn longest(places: &[u8], work: &mut [u64]) -> Option<usize>
    requires { Given places.now (marks places.now work.old) work.old }
    ensures { ExtentOf places.now result }
{
    let mut most = 0;
    for x in 0..pair_places::word_count(places) {
        most = row(places, work, x, most)?;
    }
    Some(most)
}
