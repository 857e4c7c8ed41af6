// The table of an accepted sheet, built in one pass from record to record, from the blank table on.

#![tactic(auto)]

ghost use Rattle.std.specs.Prelude.{◌≡◌, ◌+◌, ◌≤◌, length, drop};
ghost use Rattle.code.specs.Definitions.Sheets.{limits, has_starts, word_of, code_of};
ghost use Rattle.code.specs.Definitions.Lists.{tabulate};
ghost use Rattle.code.specs.Laws.Clean.{Clean, record_fields};
ghost use Rattle.code.specs.Laws.Fits.{Fits};
ghost use Rattle.csv_records.specs.Fields.{leading};
ghost use Rattle.sheet_table.specs.Standing.{row_start, mark_at};
ghost use Rattle.sheet_table.specs.Building.{RowAt, row_byte};

use code::blanks::{blank_code, blank_row, blank_word};
use code::{Code, Row, Word};
use csv_records::{byte_at, field_end, value_of};

// The word whose digits stand from `at` up to e.
fn read_word(s: &[u8], at: usize, e: usize) -> Word
    requires { (e ≡ at + length (leading (drop at s.now))) × (e ≤ length s.now) × (length (leading (drop at s.now)) ≤ 16) }
    ensures { result ≡ word_of limits (leading (drop at s.now)) }
{
    let n = e - at;
    let mut word = blank_word();
    word.len = n;
    for k in 0..n {
        word.symbols[k] = value_of(s[at + k]);
    }
    word
}

// The row whose n entries stand from `at` on, with a comma between.
fn read_row(s: &[u8], at: usize, n: usize) -> Row
    requires { RowAt s.now at n }
    ensures { result ≡ record { entries = tabulate (row_byte s.now at n) 32 } }
{
    let mut row = blank_row();
    for y in 0..n {
        row.entries[y] = value_of(s[at + 2 * y]);
    }
    row
}

// The start mark that stands at `at`; without start fields every word may begin.
fn read_mark(s: &[u8], at: usize, starts: bool) -> u8
    ensures { result ≡ mark_at s.now at starts }
{
    u8::from(!starts || byte_at(s, at) == b'1')
}

// Where the row begins whose word ends at e: behind a comma, or behind a start field between two.
fn row_start(e: usize, starts: bool) -> usize
    requires { e ≤ limits.bytes }
    ensures { (result ≡ row_start e starts) × (result ≤ e + 3) }
{
    if starts { e + 3 } else { e + 1 }
}

// The table of n records, with start fields or without.
pub fn build(s: &[u8], n: usize, starts: bool) -> Code
    requires { Clean s.now × (length s.now ≤ limits.bytes) × Fits limits (record_fields s.now) × (n ≡ length (record_fields s.now)) × (starts ≡ has_starts (record_fields s.now)) }
    ensures { result ≡ code_of limits (record_fields s.now) }
{
    let mut code = blank_code();
    let mut at = 0;
    for k in 0..n {
        let e = field_end(s, at);
        let first = row_start(e, starts);
        code.words[k] = read_word(s, at, e);
        code.begins[k] = read_mark(s, e + 1, starts);
        code.rows[k] = read_row(s, first, n);
        at = first + 2 * n + 1;
    }
    code.count = n;
    code
}
