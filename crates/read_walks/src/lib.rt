// The readings that the marks show: the first, and from the last step where another word could be taken, the second.

#![tactic(auto)]

ghost use Rattle.std.specs.Prelude.{◌≡◌, ◌+◌, ◌^◌, ◌≤◌, ◌<◌, ◌∷◌, ◌++◌, length, take, drop};
ghost use Rattle.read_marks.specs.Text.{From, Can};
ghost use Rattle.read_walks.specs.Shown.{shown};
ghost use Rattle.read_walks.specs.Steps.{advanced, Walkable, Ended};
ghost use Rattle.read_walks.specs.Answers.{Branched, Second, Answer};

use code::{Readings, WordCount};
use copying::copy_at;
use read_choices::{continues, seek};

// A step with a choice: step `at`, which began at position `start`, could also have taken the word `other`.
#[derive(Clone, Copy)]
pub struct Branch {
    pub at: usize,
    pub start: usize,
    pub other: usize,
}

// How far a walk has come: how many words it took, to which position, and which word last; and its last step with a choice, if one had any.
#[derive(Clone, Copy)]
pub struct Walk {
    pub count: usize,
    pub pos: usize,
    pub last: usize,
    pub branch: Option<Branch>,
}

// The walk after one step more, which takes word `x` of `len` symbols, where `z` is the next word that it could take.
fn advance(w: Walk, x: usize, len: usize, z: Option<usize>) -> Walk
    requires { (w.count < 2 ^ 32) × (w.pos + len < 2 ^ 32) }
    ensures { result ≡ advanced w x len z }
{
    let branch = match z {
        None => w.branch,
        Some(other) => Some(Branch {
            at: w.count,
            start: w.pos,
            other,
        }),
    };
    Walk {
        count: w.count + 1,
        pos: w.pos + len,
        last: x,
        branch,
    }
}

// Writes the least reading from `pos` after `last` into `out`, from index `from` on.
fn least_reading(
    rows: &[u64],
    lengths: &[usize],
    n: usize,
    end: usize,
    work: &[u64],
    out: &mut [u8],
    from: usize,
    pos: usize,
    last: usize,
) -> Walk
    requires { Walkable rows.now lengths.now work.now n end × Can (shown rows.now lengths.now work.now n end) pos last
        × (from ≤ pos) × (from ≤ end) × (last ≤ n) × (end ≤ length out.old) }
    ensures { Ended (shown rows.now lengths.now work.now n end) n pos last from out.old out.new result }
{
    let mut w = Walk {
        count: 0,
        pos,
        last,
        branch: None,
    };
    // A while: a step ends where the word that it takes does. Before the end there is one to take.
    while w.pos < end {
        let x = seek(rows, n, work, w.pos, w.last, 0).unwrap();
        let z = seek(rows, n, work, w.pos, w.last, x + 1);
        out[from + w.count] = x as u8;
        w = advance(w, x, lengths[x], z);
    }
    w
}

// Copies the first `at` entries of `first`, and writes `other` behind them.
fn copy_branch(first: &[u8], second: &mut [u8], at: usize, other: usize)
    requires { (at ≤ length first.now) × (at < length second.old) × (other < 256) }
    ensures { second.new ≡ take at first.now ++ (other ∷ drop (at + 1) second.old) }
{
    copy_at(second, 0, first, at);
    second[at] = other as u8;
}

// Writes into `second` the words of `first` before the step with a choice, the other word there, and the least reading after it. Gives how many words these are.
fn second_reading(
    rows: &[u64],
    lengths: &[usize],
    n: usize,
    end: usize,
    work: &[u64],
    first: &[u8],
    second: &mut [u8],
    branch: Branch,
) -> usize
    requires { Walkable rows.now lengths.now work.now n end × Branched (shown rows.now lengths.now work.now n end) n branch
        × (branch.at ≤ length first.now) × (end ≤ length second.old) }
    ensures { Second (shown rows.now lengths.now work.now n end) first.now second.old second.new branch result }
{
    let Branch { at, start, other } = branch;
    copy_branch(first, second, at, other);
    let after = start + lengths[other];
    let v = least_reading(rows, lengths, n, end, work, second, at + 1, after, other);
    at + 1 + v.count
}

// The first readings that the marks show, if there are any. Which refusal it is that there are none, if any, is the caller's matter.
pub fn first_readings(
    rows: &[u64],
    lengths: &[usize],
    n: usize,
    end: usize,
    work: &[u64],
    first: &mut [u8],
    second: &mut [u8],
) -> Option<Readings>
    requires { Walkable rows.now lengths.now work.now n end × (end ≤ length first.old) × (end ≤ length second.old) }
    ensures { Answer (From (shown rows.now lengths.now work.now n end) 0 n)
        first.old second.old first.new second.new result }
{
    if !continues(rows, n, end, work, 0, n) {
        return None;
    }
    let w = least_reading(rows, lengths, n, end, work, first, 0, 0, n);
    let one = WordCount(w.count);
    match w.branch {
        None => Some(Readings::One(one)),
        Some(branch) => {
            let count = second_reading(rows, lengths, n, end, work, first, second, branch);
            Some(Readings::Two(one, WordCount(count)))
        }
    }
}
