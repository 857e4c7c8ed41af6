// The part of refusal 8 that is about the table alone: whether an accepted sheet gives it. Each part of the table is held to its bounds, and all that stands
// past a word, past a row or past the count to zero.

#![tactic(auto)]

ghost use Rattle.std.specs.Prelude.{◌≡◌, ℕ, ◌-◌, ◌≤◌, ◌<◌, max, length};
ghost use Rattle.code.specs.Definitions.Lists.{tabulate, sum};
ghost use Rattle.code.specs.Definitions.Sheets.{limits, FromSheet};
ghost use Rattle.code.specs.Laws.Exactly.{Exactly};
ghost use Rattle.well_formed.specs.AtMost.{AtMost, greatest, greatest_entries, greatest_symbols};
ghost use Rattle.code.specs.Laws.WellFormed.{len_of, WordFits, RowFits, RecordAt};

use code::{Code, Row, Word};
use std::array;

// Whether no cell of an array is above the same cell of `most`. The loop keeps the greatest excess and no bool: so the compiler tests many cells at once,
// which it doesn't for `all`.
fn at_most(a: &[u8], most: &[u8]) -> bool
    requires { length a.now ≤ length most.now }
    ensures { Exactly result (AtMost a.now most.now) }
{
    let mut over = 0;
    for (v, w) in a.iter().zip(most) {
        over = v.saturating_sub(*w).max(over);
    }
    over == 0
}

// The greatest values of an array of which the first n cells are in use: v in these, and zeros behind.
fn greatest<const N: usize>(n: usize, v: u8) -> [u8; N]
    ensures { result ≡ greatest v n N }
{
    // Each cell by itself, and no `fill` of the first ones: so the compiler makes many cells at once, and calls nothing.
    array::from_fn(|p| if p < n { v } else { 0 })
}

// The greatest entries of a row in use, and the greatest start marks, in a code of n words.
fn greatest_entries(n: usize) -> [u8; Code::WORDS]
    ensures { result ≡ greatest_entries limits n }
{
    greatest(n, 1)
}

// The greatest symbols of a word of n symbols, with the zeros behind them.
fn greatest_symbols(n: usize) -> [u8; Word::SYMBOLS]
    ensures { result ≡ greatest_symbols limits n }
{
    greatest(n, Word::ALPHABET - 1)
}

// Word k of a code of n words.
fn word_fits(w: Word, k: usize, n: usize) -> bool
    ensures { Exactly result (WordFits limits n k w) }
{
    let symbols = w.symbols;
    if n <= k {
        let none = greatest_symbols(0);
        return w.len == 0 && at_most(&symbols, &none);
    }
    if Word::SYMBOLS < w.len {
        return false;
    }
    let most = greatest_symbols(w.len);
    1 <= w.len && at_most(&symbols, &most)
}

// Row x of a code of n words; `most` has the greatest entries of a row in use.
fn row_fits(row: Row, x: usize, n: usize, most: &[u8; Code::WORDS]) -> bool
    requires { most.now ≡ greatest_entries limits n }
    ensures { Exactly result (RowFits limits n x row) }
{
    let entries = row.entries;
    if x < n {
        at_most(&entries, most)
    } else {
        let none = greatest_entries(0);
        at_most(&entries, &none)
    }
}

// All words and rows, also those past the count; `most` is as for a row.
fn records_fit(code: Code, most: &[u8; Code::WORDS]) -> bool
    requires { most.now ≡ greatest_entries limits code.count }
    ensures { Exactly result ((k : ℕ) → k < limits.words → RecordAt limits code k) }
{
    (0..Code::WORDS).all(|k| word_fits(code.words[k], k, code.count)
        && row_fits(code.rows[k], k, code.count, most))
}

// The words together have at most as many symbols as a code may have. No sum is made, since it could pass the range of a number.
fn total_fits(code: Code) -> bool
    ensures { Exactly result (sum (tabulate (len_of code) limits.words) ≤ limits.total) }
{
    // one more than the symbols that may still come
    let mut room = Code::SYMBOLS + 1;
    for word in code.words.iter() {
        room = room.saturating_sub(word.len);
    }
    0 < room
}

// Whether an accepted sheet gives this table: where not, refusal 8 holds of every value that has it.
pub fn well_formed(code: Code) -> bool
    ensures { Exactly result (FromSheet limits code) }
{
    let n = code.count;
    let begins = code.begins;
    let most = greatest_entries(n);
    (1 <= n)
        & (n <= Code::WORDS)
        & at_most(&begins, &most)
        & records_fit(code, &most)
        & total_fits(code)
}
