// The records of a class sheet, one at a time: the range of bytes that it names, and their symbol.

#![tactic(auto)]

ghost use Rattle.std.specs.Prelude.{◌≡◌, true, ◌≤◌, ◌<◌, length, drop};
ghost use Rattle.code.specs.Definitions.ClassSheets.{symbol_of, byte_of, digits};
ghost use Rattle.code.specs.Definitions.Texts.{other};
ghost use Rattle.code.specs.Laws.Clean.{Clean};
ghost use Rattle.csv_records.specs.Fields.{leading};
ghost use Rattle.class_records.specs.Ensured.{Formed, RecordFrom};

use csv_records::{byte_at, field_end, value_of};

// The bytes from `lowest` to `highest`, the symbol of them all, and where the next record begins.
#[derive(Clone, Copy)]
pub struct ByteRange {
    pub lowest: u8,
    pub highest: u8,
    pub symbol: u8,
    pub next: usize,
}

// Whether the field that begins at `at` has n digits and no more.
#[tactic(auto, using(crate::proofs::Laws::Forms::digits_counted))]
fn has_digits(s: &[u8], at: usize, n: usize) -> bool
    requires { at ≤ length s.now }
    ensures { result ≡ digits n (leading (drop at s.now)) }
{
    field_end(s, at) - at == n
}

// Whether the record that begins at `at` has fields of two digits, two and one.
fn is_formed(s: &[u8], at: usize) -> bool
    requires { Clean (drop at s.now) × (at ≤ length s.now) }
    ensures { Formed s.now at result }
{
    has_digits(s, at, 2)
        && byte_at(s, at + 2) == b','
        && has_digits(s, at + 3, 2)
        && byte_at(s, at + 5) == b','
        && has_digits(s, at + 6, 1)
        && byte_at(s, at + 7) != b','
}

// The byte that a field stands for.
fn byte_in(s: &[u8], at: usize) -> u8
    requires { digits 2 (leading (drop at s.now)) ≡ true }
    ensures { result ≡ byte_of (leading (drop at s.now)) }
{
    let high = value_of(s[at]);
    let low = value_of(s[at + 1]);
    16 * high + low
}

// The symbol that a field stands for.
fn symbol_in(s: &[u8], at: usize) -> u8
    requires { digits 1 (leading (drop at s.now)) ≡ true }
    ensures { (result ≡ symbol_of (leading (drop at s.now))) × (result < other) }
{
    value_of(s[at])
}

// The record that begins at `at`, or None if it is malformed. One that is not has seven bytes, and behind them CR LF or the end of the sheet.
#[tactic(auto, using(crate::proofs::Laws::Forms::range_read))]
pub fn read_range(s: &[u8], at: usize) -> Option<ByteRange>
    requires { Clean (drop at s.now) × (at ≤ length s.now) }
    ensures { RecordFrom s.now at result }
{
    if !is_formed(s, at) {
        return None;
    }
    Some(ByteRange {
        lowest: byte_in(s, at),
        highest: byte_in(s, at + 3),
        symbol: symbol_in(s, at + 6),
        next: at + 9,
    })
}
