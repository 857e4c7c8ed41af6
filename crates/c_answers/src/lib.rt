// The answers as numbers: a trait gives the four entries of each kind of result, and one function writes them and gives the number to return.

#![tactic(auto)]

ghost use Rattle.std.specs.Prelude.{◌≡◌, List, ℕ, ◌≤◌, ltb, length};
ghost use Rattle.code.specs.Definitions.Answers.{refusal_number};
ghost use Rattle.code.specs.Definitions.Operations.{written};
ghost use Rattle.c_answers.specs.Answers.{answer_length, answer_number, answer_entries, symbols_entries, bytes_entries, word_entries, readings_entries, verdict_entries};

use code::{ByteCount, Readings, Refusal, SymbolCount, Verdict};

#[derive(Clone, Copy)]
pub struct Answer {}

impl Answer {
    // Entries an answer.
    pub const LENGTH: usize = 4;
}

// Whether a buffer of so many entries is too short for an answer.
pub fn is_short(entries: usize) -> bool
    ensures { result ≡ ltb entries answer_length }
{
    entries < Answer::LENGTH
}

pub fn number(r: Refusal) -> u64
    ensures { result ≡ refusal_number r }
{
    u64::from(r.number())
}

// A result as the entries of an answer.
pub trait Entries {
    ghost told: { Self → List ℕ };

    fn entries(self) -> [u64; Answer::LENGTH]
        ensures { result ≡ told self };
}

// The length of an encoded message.
impl Entries for SymbolCount {
    ghost told = { symbols_entries };

    fn entries(self) -> [u64; Answer::LENGTH] {
        let SymbolCount(symbols) = self;
        [symbols as u64, 0, 0, 0]
    }
}

// The length of a text split into syllables.
impl Entries for ByteCount {
    ghost told = { bytes_entries };

    fn entries(self) -> [u64; Answer::LENGTH] {
        let ByteCount(bytes) = self;
        [bytes as u64, 0, 0, 0]
    }
}

// The number of the next word.
impl Entries for usize {
    ghost told = { word_entries };

    fn entries(self) -> [u64; Answer::LENGTH] {
        [self as u64, 0, 0, 0]
    }
}

impl Entries for Readings {
    ghost told = { readings_entries };

    fn entries(self) -> [u64; Answer::LENGTH] {
        match self {
            Readings::One(n) => [1, n.0 as u64, 0, 0],
            Readings::Two(n, k) => [2, n.0 as u64, k.0 as u64, 0],
        }
    }
}

impl Entries for Verdict {
    ghost told = { verdict_entries };

    fn entries(self) -> [u64; Answer::LENGTH] {
        match self {
            Verdict::Ambiguous(m, s, u) => [1, m.0 as u64, s.0 as u64, u.0 as u64],
            Verdict::Finite(d) => [2, d.0 as u64, 0, 0],
            Verdict::Unbounded => [3, 0, 0, 0],
        }
    }
}

// Writes the entries of a result at the start of `answer`, and gives the number to return.
pub fn put_answer<T: Entries>(e: Result<T, Refusal>, answer: &mut [u64]) -> u64
    requires { answer_length ≤ length answer.old }
    ensures { (result ≡ answer_number e) × (answer.new ≡ written (answer_entries T.told e) answer.old) }
{
    match e {
        Ok(x) => {
            answer[..Answer::LENGTH].copy_from_slice(&x.entries());
            0
        }
        Err(r) => number(r),
    }
}
