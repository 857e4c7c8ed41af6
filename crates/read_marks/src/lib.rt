// Which words begin a reading of the rest at which position of a message: a set of words for each position, from the last to the first.

#![tactic(auto)]

ghost use Rattle.std.specs.Prelude.{◌≡◌, ◌+◌, ◌≤◌, ◌<◌, length, replicate};
ghost use Rattle.code.specs.Definitions.Sheets.{limits};
ghost use Rattle.read_sets.specs.Sets.{Sized};
ghost use Rattle.read_marks.specs.Message.{symbols_at};
ghost use Rattle.read_marks.specs.Steps.{Stepped};
ghost use Rattle.read_marks.specs.Begun.{FirstTails};
ghost use Rattle.read_marks.specs.Marks.{MarksAll};

use bits::union_of;
use code::Word;
use read_sets::block_of;

// Takes the tails one position to the front. A word's tail from index `j` on stands where its symbol `j` does and is followed by its tail from `j + 1` on, or is
// its last symbol and reading can go on after it.
fn step(tails: &mut [u64], having: &[u64], ends: &[u64], block: usize, onward: u64, longest: usize)
    requires { (longest < length tails.old) × (longest ≤ length ends.now) × (block + longest ≤ length having.now) }
    ensures { Stepped having.now ends.now block onward longest tails.old tails.new }
{
    // Downwards, with the old entry carried: upwards each load would wait for the stores of the position before.
    let mut above = tails[longest];
    for j in (0..longest).rev() {
        let here = tails[j];
        tails[j] = (above | (onward & ends[j])) & having[block + j];
        above = here;
    }
}

// Lays the tails at the end, in a list that is zero: none, or, if the last word may be cut, after `j` symbols the words that have more.
fn first_tails(tails: &mut [u64], ends: &[u64], longest: usize, cut: bool)
    requires { (tails.old ≡ replicate (limits.symbols + 1) 0) × (1 ≤ longest) × (longest ≤ limits.symbols) × (longest ≤ length ends.now) }
    ensures { FirstTails ends.now longest cut tails.new × (length tails.new ≡ limits.symbols + 1) }
{
    if cut {
        let mut longer: u64 = 0;
        for j in (1..longest).rev() {
            longer |= ends[j];
            tails[j] = longer;
        }
    }
}

// Marks every position of the message: an entry holds the words that begin a reading there. If `cut`, the last word of a reading may be only begun.
pub fn mark_all(
    having: &[u64],
    ends: &[u64],
    rows: &[u64],
    longest: usize,
    message: &[u8],
    cut: bool,
    work: &mut [u64],
)
    requires { Sized having.now ends.now rows.now longest × (length work.old ≡ length message.now + 1) }
    ensures { MarksAll having.now ends.now rows.now longest (symbols_at cut message.now) work.new }
{
    let mut tails = [0u64; Word::SYMBOLS + 1];
    first_tails(&mut tails, ends, longest, cut);
    // At the end reading is done after any word.
    let mut onward: u64 = u64::MAX;
    work[message.len()] = 0;
    for pos in (0..message.len()).rev() {
        let block = block_of(message[pos]);
        step(&mut tails, having, ends, block, onward, longest);
        let marks = tails[0];
        work[pos] = marks;
        onward = union_of(rows, marks);
    }
}
