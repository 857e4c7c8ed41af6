// A code as sets of words, numbers whose bit `x` stands for word `x`: for each symbol and index the words that have it there, for each length the words that
// have it, for each word the words that it may come after. The start counts as one more word, after the last: a word that may begin comes after it.

#![tactic(auto)]

ghost use Rattle.std.specs.Prelude.{◌≡◌, ◌≤◌, ◌<◌, length, replicate};
ghost use Rattle.code.specs.Definitions.Tables.{table_of};
ghost use Rattle.code.specs.Definitions.Sheets.{limits};
ghost use Rattle.code.specs.Laws.WellFormed.{CellsFit, WellFormed};
ghost use Rattle.bits.specs.Bits.{width};
ghost use Rattle.read_sets.specs.Sets.{alphabet, symbol_sets, block_of, Lays};
ghost use Rattle.read_sets.specs.Words.{Spread, LaidWords};
ghost use Rattle.read_sets.specs.Rows.{RowSet, LaidRows};

use bits::put;
use code::{Code, Row, Word};

#[derive(Clone, Copy)]
pub struct Sets {}

impl Sets {
    // Sets for symbols: for each symbol one for each index, and as many for what is no symbol, which stay empty.
    pub const SYMBOLS: usize = (Word::ALPHABET as usize + 1) * Word::SYMBOLS;
}

// Where the sets of a symbol begin, one for each index.
pub fn block_of(symbol: u8) -> usize
    ensures { result ≡ block_of symbol }
{
    if symbol < Word::ALPHABET {
        return (symbol as usize) * Word::SYMBOLS;
    }
    (Word::ALPHABET as usize) * Word::SYMBOLS
}

// Puts word `x` into the sets of its symbols.
fn lay_word(w: Word, x: usize, having: &mut [u64])
    requires { (length having.old ≡ symbol_sets) × (w.len ≤ limits.symbols) × CellsFit alphabet w.len w.symbols × (x < width) }
    ensures { Spread w x w.len having.old having.new }
{
    for j in 0..w.len {
        let block = block_of(w.symbols[j]);
        put(having, block + j, x);
    }
}

// Puts every word into the sets of its symbols and of its length. Gives the greatest length.
fn lay_words(code: Code, having: &mut [u64], ends: &mut [u64], lengths: &mut [usize]) -> usize
    requires { WellFormed limits code × (having.old ≡ replicate symbol_sets 0) × (ends.old ≡ replicate limits.symbols 0)
        × (lengths.old ≡ replicate limits.words 0) }
    ensures { LaidWords code code.count having.new ends.new lengths.new result }
{
    let mut longest: usize = 0;
    for x in 0..code.count {
        let w = code.words[x];
        lay_word(w, x, having);
        put(ends, w.len - 1, x);
        lengths[x] = w.len;
        longest = longest.max(w.len);
    }
    longest
}

// The words that a row of the matrix has, of `n`, and the start if its mark is 1.
fn row_set(row: Row, start: u8, n: usize) -> u64
    requires { CellsFit 2 n row.entries × (start < 2) × (n ≤ limits.words) }
    ensures { RowSet row start n n result }
{
    let mut set = u64::from(start) << n;
    for y in 0..n {
        let entry = u64::from(row.entries[y]);
        set |= entry << y;
    }
    set
}

// Every row as a set.
fn lay_rows(code: Code, rows: &mut [u64])
    requires { WellFormed limits code × (limits.words ≤ length rows.old) }
    ensures { LaidRows code code.count rows.new }
{
    for x in 0..code.count {
        rows[x] = row_set(code.rows[x], code.begins[x], code.count);
    }
}

// Makes the sets of a code, in lists that are zero. Gives the greatest length of a word.
pub fn lay(
    code: Code,
    having: &mut [u64],
    ends: &mut [u64],
    rows: &mut [u64],
    lengths: &mut [usize],
) -> usize
    requires { WellFormed limits code × (having.old ≡ replicate symbol_sets 0) × (ends.old ≡ replicate limits.symbols 0)
        × (lengths.old ≡ replicate limits.words 0) × (limits.words ≤ length rows.old) }
    ensures { Lays (table_of code) having.new ends.new rows.new lengths.new code.count result }
{
    lay_rows(code, rows);
    lay_words(code, having, ends, lengths)
}
