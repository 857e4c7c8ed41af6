// Finding the readings of a message in a plain code: whether no, one or several permitted sequences of words have it, and the first two of them.

#![tactic(auto)]

ghost use Rattle.std.specs.Prelude.{◌≡◌, ◌+◌, ◌^◌, ◌≤◌, ◌<◌, length};
ghost use Rattle.code.specs.Definitions.Sheets.{limits};
ghost use Rattle.code.specs.Definitions.Tables.{table_of};
ghost use Rattle.code.specs.Laws.WellFormed.{WellFormed};
ghost use Rattle.read_sets.specs.Sets.{SetsOf};
ghost use Rattle.read_core.specs.Core.{ReadsSets, FindsAll};
ghost use Rattle.read_core.specs.Counts.{first_count, second_count};

use code::{Code, Readings, Word};
use read_sets::Sets;

// How many words were read into the first buffer.
pub fn first_count(found: Option<Readings>) -> usize
    ensures { result ≡ first_count found }
{
    match found {
        None => 0,
        Some(Readings::One(n) | Readings::Two(n, _)) => n.0,
    }
}

// How many words were read into the second buffer.
pub fn second_count(found: Option<Readings>) -> usize
    ensures { result ≡ second_count found }
{
    match found {
        None | Some(Readings::One(_)) => 0,
        Some(Readings::Two(_, n)) => n.0,
    }
}

// Reads a message by the sets of a code's words, which may serve many messages. The marks stand in the working buffer, which need not be clear before and is
// zero after.
pub fn read_core(
    having: &[u64],
    ends: &[u64],
    rows: &[u64],
    lengths: &[usize],
    n: usize,
    longest: usize,
    message: &[u8],
    first: &mut [u8],
    second: &mut [u8],
    work: &mut [u64],
) -> Option<Readings>
    requires { SetsOf having.now ends.now rows.now lengths.now n longest
        × (length work.old ≡ length message.now + 1) × (length message.now < 2 ^ 32) × (length message.now ≤ length first.old)
        × (length message.now ≤ length second.old) }
    ensures { ReadsSets having.now ends.now rows.now lengths.now n longest message.now
        first.old second.old work.old first.new second.new work.new result }
{
    read_marks::mark_all(having, ends, rows, longest, message, false, work);
    let r = read_walks::first_readings(rows, lengths, n, message.len(), work, first, second);
    work.fill(0);
    r
}

// Reads a message by a well-formed code, in buffers that are long enough.
pub fn find_readings(
    code: Code,
    message: &[u8],
    first: &mut [u8],
    second: &mut [u8],
    work: &mut [u64],
) -> Option<Readings>
    requires { WellFormed limits code × (length message.now < 2 ^ 32) × (length message.now ≤ length first.old)
        × (length message.now ≤ length second.old) × (length message.now < length work.old) }
    ensures { FindsAll (table_of code) message.now first.old second.old work.old
        first.new second.new work.new result }
{
    let mut having = [0u64; Sets::SYMBOLS];
    let mut ends = [0u64; Word::SYMBOLS];
    let mut rows = [0u64; Code::WORDS];
    let mut lengths = [0usize; Code::WORDS];
    let longest = read_sets::lay(code, &mut having, &mut ends, &mut rows, &mut lengths);
    // Only the rest is cleared: the marks need no clear entries, and leave theirs zero.
    let used = message.len() + 1;
    work[used..].fill(0);
    read_core(
        &having,
        &ends,
        &rows,
        &lengths,
        code.count,
        longest,
        message,
        first,
        second,
        &mut work[..used],
    )
}
