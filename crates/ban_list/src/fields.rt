// The fields of a ban list: one number, and the three of a record.

ghost use Rattle.std.specs.Prelude.{◌≡◌, ◌≤◌, length, drop};
ghost use Rattle.code.specs.Laws.Clean.{Clean};
ghost use Rattle.ban_list.specs.Numbers.{value_in, number_in};
ghost use Rattle.ban_list.specs.Ensured.{FieldAt, RecordFrom};

use csv_records::{byte_at, field_end};

// A field: its number, if it is that of a word; where it ends; whether it is the last of its record.
#[derive(Clone, Copy)]
pub struct Field {
    pub number: Option<usize>,
    pub end: usize,
    pub last: bool,
}

// The ban of a record, and where the next record begins.
#[derive(Clone, Copy)]
pub struct Record {
    pub x: usize,
    pub y: usize,
    pub z: usize,
    pub next: usize,
}

// The number that the bytes of a field stand for; none if one of them is no decimal digit, or the number is no smaller than `words`.
fn value(field: &[u8], words: usize) -> Option<usize>
    requires { (1 ≤ length field.now) × (words ≤ 256) }
    ensures { result ≡ value_in words 0 field.now }
{
    let mut sum: usize = 0;
    for b in field {
        if !b.is_ascii_digit() {
            return None;
        }
        sum = sum * 10 + usize::from(*b - b'0');
        if words <= sum {
            return None;
        }
    }
    Some(sum)
}

// The number of a field; none if it is empty, has a leading zero, or is no number below `words`.
fn number(field: &[u8], words: usize) -> Option<usize>
    requires { words ≤ 256 }
    ensures { result ≡ number_in words field.now }
{
    if field.is_empty() {
        return None;
    }
    let padded = field.len() > 1 && field[0] == b'0';
    if padded { None } else { value(field, words) }
}

// The field that begins at `at`.
fn read_field(s: &[u8], at: usize, words: usize) -> Field
    requires { (at ≤ length s.now) × (words ≤ 256) }
    ensures { FieldAt words s.now at result }
{
    let end = field_end(s, at);
    Field {
        number: number(&s[at..end], words),
        end,
        last: byte_at(s, end) != b',',
    }
}

// The record that begins at `at`, if it is a ban.
pub fn read_record(s: &[u8], at: usize, words: usize) -> Option<Record>
    requires { Clean (drop at s.now) × (at ≤ length s.now) × (words ≤ 256) }
    ensures { RecordFrom words s.now at result }
{
    let first = read_field(s, at, words);
    if first.last {
        return None;
    }
    let second = read_field(s, first.end + 1, words);
    if second.last {
        return None;
    }
    let third = read_field(s, second.end + 1, words);
    if !third.last {
        return None;
    }
    let x = first.number?;
    let y = second.number?;
    let z = third.number?;
    if y == z {
        return None;
    }
    Some(Record {
        x,
        y,
        z,
        next: third.end + 2,
    })
}
