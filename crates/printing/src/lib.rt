// The printed result: the bytes of a verdict or a refusal, for whoever writes them out.

#![tactic(auto)]

pub mod puts;

ghost use Rattle.std.specs.Prelude.{◌≡◌, [], ◌∷◌, ◌++◌, map, ◌+◌, ◌≤◌, length, Ok};
ghost use Rattle.code.specs.declared.Verdict.TheVariants.{Ambiguous};
ghost use Rattle.csv_records.specs.Digits.{digit_of};
ghost use Rattle.code.specs.Laws.Exactly.{Exactly};
ghost use Rattle.printing.specs.Printed.{decimal, record_of, ambiguous, refused_record};
ghost use Rattle.writing.specs.Puts.{Puts, Starts};
ghost use Rattle.printing.specs.Prints.{lengths_of, needed, Symbols, Printable, result_of, Prints};

use code::{Refusal, SymbolCount, Verdict, Word, WordCount};
use puts::{put_decimal, put_digits, put_reading};
use writing::put;

// How much of the verdict's three buffers a judgement shows: symbols of the message, words of the first reading and of the second.
#[derive(Clone, Copy, Default)]
pub struct Lengths {
    pub message: usize,
    pub first: usize,
    pub second: usize,
}

impl Lengths {
    // Bytes for what is neither message nor reading: words, commas, line ends, and the 20 digits that a number may have.
    pub const FRAME: usize = 35;
    // Bytes a word number, with its comma.
    pub const NUMBER: usize = 4;

    // Whether a buffer of this size has room for a result of these lengths.
    fn fit(self, size: usize) -> bool
        ensures { Exactly result (needed self ≤ size) }
    {
        // In 128 bits no sum of three sizes wraps.
        let numbers = (self.first as u128 + self.second as u128) * Lengths::NUMBER as u128;
        Lengths::FRAME as u128 + self.message as u128 + numbers <= size as u128
    }
}

fn shown(judgement: Result<Verdict, Refusal>) -> Lengths
    ensures { result ≡ lengths_of judgement }
{
    if let Ok(Verdict::Ambiguous(message, first, second)) = judgement {
        Lengths {
            message: message.0,
            first: first.0,
            second: second.0,
        }
    } else {
        Lengths::default()
    }
}

// Whether every entry of a message is a symbol.
fn all_symbols(message: &[u8]) -> bool
    ensures { Exactly result (Symbols message.now) }
{
    message.iter().all(|symbol| *symbol < Word::ALPHABET)
}

// Whether the result can be printed.
fn printable(
    judgement: Result<Verdict, Refusal>,
    message: &[u8],
    first: &[u8],
    second: &[u8],
    size: usize,
) -> bool
    ensures { Exactly result (Printable judgement message.now first.now second.now size) }
{
    let lengths = shown(judgement);
    lengths.message <= message.len()
        && lengths.first <= first.len()
        && lengths.second <= second.len()
        && all_symbols(&message[..lengths.message])
        && lengths.fit(size)
}

// A record of a word, which ends with its comma, and a number.
fn put_pair(word: &[u8], number: u64, out: &mut [u8]) -> usize
    requires { length word.now + 22 ≤ length out.old }
    ensures { Starts (word.now ++ decimal number ++ (13 ∷ 10 ∷ [])) out.old out.new result }
{
    let comma = put(out, 0, word);
    let end = put_decimal(out, comma, number);
    put(out, end, b"\r\n")
}

// The record of a refusal: it takes at most 30 bytes.
pub fn put_refused(refusal: Refusal, out: &mut [u8]) -> usize
    requires { 30 ≤ length out.old }
    ensures { Starts (refused_record refusal) out.old out.new result }
{
    put_pair(b"refused,", refusal.number() as u64, out)
}

// The record of an ambiguous message.
fn put_message(message: &[u8], out: &mut [u8]) -> usize
    requires { (length message.now + 12 ≤ length out.old) × Symbols message.now }
    ensures { Puts 0 (record_of (ambiguous ∷ map digit_of message.now ∷ [])) out.old out.new result }
{
    let comma = put(out, 0, b"ambiguous,");
    let end = put_digits(out, comma, message);
    put(out, end, b"\r\n")
}

// The records of a message, of its earlier reading and of its later one.
fn put_ambiguous(
    symbols: SymbolCount,
    earlier: WordCount,
    later: WordCount,
    message: &[u8],
    first: &[u8],
    second: &[u8],
    out: &mut [u8],
) -> usize
    requires { Printable (Ok (Ambiguous symbols earlier later)) message.now first.now second.now (length out.old) }
    ensures { Starts (result_of (Ok (Ambiguous symbols earlier later)) message.now first.now second.now) out.old out.new result }
{
    let m = symbols.0;
    let f = earlier.0;
    let g = later.0;
    let line = put_message(&message[..m], out);
    let next = put_reading(out, line, &first[..f]);
    put_reading(out, next, &second[..g])
}

fn put_verdict(
    verdict: Verdict,
    message: &[u8],
    first: &[u8],
    second: &[u8],
    out: &mut [u8],
) -> usize
    requires { Printable (Ok verdict) message.now first.now second.now (length out.old) }
    ensures { Starts (result_of (Ok verdict) message.now first.now second.now) out.old out.new result }
{
    match verdict {
        Verdict::Ambiguous(symbols, earlier, later) => put_ambiguous(
            symbols, earlier, later, message, first, second, out,
        ),
        Verdict::Finite(delay) => put_pair(b"decipherable,", delay.0 as u64, out),
        Verdict::Unbounded => put(out, 0, b"decipherable,unbounded\r\n"),
    }
}

fn put_result(
    judgement: Result<Verdict, Refusal>,
    message: &[u8],
    first: &[u8],
    second: &[u8],
    out: &mut [u8],
) -> usize
    requires { Printable judgement message.now first.now second.now (length out.old) }
    ensures { Starts (result_of judgement message.now first.now second.now) out.old out.new result }
{
    match judgement {
        Ok(verdict) => put_verdict(verdict, message, first, second, out),
        Err(refusal) => put_refused(refusal, out),
    }
}

// Prints a judgement at the start of `out`, with the message and the two readings at the start of the verdict's buffers, and gives the number of
// bytes. Where a buffer is shorter than what the judgement shows of it, or an entry is no symbol, or `out` has no room, it prints nothing and gives 0.
pub fn print_result(
    judgement: Result<Verdict, Refusal>,
    message: &[u8],
    first: &[u8],
    second: &[u8],
    out: &mut [u8],
) -> usize
    ensures { Prints judgement message.now first.now second.now out.old out.new result }
{
    if printable(judgement, message, first, second, out.len()) {
        put_result(judgement, message, first, second, out)
    } else {
        0
    }
}
