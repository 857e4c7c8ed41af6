// What the records of a sheet amount to: one pass from field to field, with counts, and a flag for each refusal that a single record can show.

#![tactic(auto)]

ghost use Rattle.std.specs.Prelude.{◌≡◌, ◌+◌, ◌≤◌, ◌<◌, length, drop};
ghost use Rattle.code.specs.Definitions.Sheets.{limits};
ghost use Rattle.code.specs.Laws.Clean.{Clean, record_fields};
ghost use Rattle.sheet_survey.specs.Survey.{start, entry_bad, word_bad, take_span, end_record, survey_records, marked, width_bad, row_bad, start_bad, answer_of};
ghost use Rattle.sheet_survey.specs.Passing.{Bounded, Step};

use code::{Code, Refusal, Word};
use csv_records::{byte_at, field_end};

// `records` and `fields` count what has ended: records, and fields of the current record. `width` is the number of fields of the first record.
// Which fields are row entries is known only at the end: so the second field has a flag of its own, and the later ones have another.
#[derive(Clone, Copy, Default)]
pub struct Survey {
    pub records: usize,
    pub fields: usize,
    pub width: usize,
    pub symbols: usize,
    pub badword: bool,
    pub badwidth: bool,
    pub badsecond: bool,
    pub badlater: bool,
}

// A survey of what stands before `at`, where a field begins.
#[derive(Clone, Copy, Default)]
pub struct Cursor {
    pub survey: Survey,
    pub at: usize,
}

// A start field or a row entry is the single digit 0 or 1; here it has n bytes, of which b is the first.
fn entry_bad(n: usize, b: u8) -> bool
    ensures { result ≡ entry_bad n b }
{
    !(n == 1 && (b == b'0' || b == b'1'))
}

fn word_bad(n: usize) -> bool
    ensures { result ≡ word_bad n }
{
    n == 0 || Word::SYMBOLS < n
}

// The survey with one field more, of n bytes, of which b is the first.
#[tactic(auto, unfolding(crate::specs::Survey::take_span))]
fn take_span(v: Survey, n: usize, b: u8) -> Survey
    requires { (v.fields < 8192) × (v.symbols + n < 8192) }
    ensures { result ≡ take_span v n b }
{
    let fields = v.fields + 1;
    match v.fields {
        0 => Survey {
            fields,
            symbols: v.symbols + n,
            badword: v.badword || word_bad(n),
            ..v
        },
        1 => Survey {
            fields,
            badsecond: v.badsecond || entry_bad(n, b),
            ..v
        },
        _ => Survey {
            fields,
            badlater: v.badlater || entry_bad(n, b),
            ..v
        },
    }
}

// The survey at the end of a record.
#[tactic(auto, unfolding(crate::specs::Survey::end_record))]
fn end_record(v: Survey) -> Survey
    requires { v.records < 8192 }
    ensures { result ≡ end_record v }
{
    let width = if v.records == 0 { v.fields } else { v.width };
    Survey {
        records: v.records + 1,
        fields: 0,
        width,
        badwidth: v.badwidth || v.fields != width,
        ..v
    }
}

// One field further.
fn next_field(s: &[u8], c: Cursor) -> Cursor
    requires { Clean (drop c.at s.now) × (c.at ≤ length s.now) × (length s.now ≤ 4096) × Bounded c }
    ensures { Step s.now c result }
{
    let at = c.at;
    let e = field_end(s, at);
    let v = take_span(c.survey, e - at, byte_at(s, at));
    if byte_at(s, e) == b',' {
        Cursor {
            survey: v,
            at: e + 1,
        }
    } else {
        Cursor {
            survey: end_record(v),
            at: e + 2,
        }
    }
}

// The survey of all records.
pub fn survey_all(s: &[u8]) -> Survey
    requires { Clean s.now × (length s.now ≤ 4096) }
    ensures { (result ≡ survey_records start (record_fields s.now)) × (result.records ≤ limits.bytes + 2) }
{
    let mut c = Cursor::default();
    // A while: where a field ends tells where the next one begins.
    while c.at <= s.len() {
        c = next_field(s, c);
    }
    c.survey
}

// Whether every record has a start field: then it has two fields more than there are records.
pub fn has_starts(v: Survey) -> bool
    requires { v.records ≤ limits.bytes + 2 }
    ensures { result ≡ marked v }
{
    !v.badwidth && v.width == v.records + 2
}

// Refusal 6: with start fields all records have the right width, without them all must have one field more than there are records.
fn bad_width(v: Survey, starts: bool) -> bool
    requires { v.records ≤ limits.bytes + 2 }
    ensures { result ≡ width_bad v starts }
{
    !starts && (v.badwidth || v.width != v.records + 1)
}

// Refusal 7: the second field is a row entry only where there are no start fields.
fn bad_row(v: Survey, starts: bool) -> bool
    ensures { result ≡ row_bad v starts }
{
    v.badlater || !starts && v.badsecond
}

// Refusal 15.
fn bad_start(v: Survey, starts: bool) -> bool
    ensures { result ≡ start_bad v starts }
{
    starts && v.badsecond
}

// What the survey says of the sheet, with start fields or without: the lowest refusal from 3 on, or that it is accepted.
pub fn judge(v: Survey, starts: bool) -> Result<(), Refusal>
    requires { v.records ≤ limits.bytes + 2 }
    ensures { result ≡ answer_of v starts }
{
    let width = bad_width(v, starts);
    let row = bad_row(v, starts);
    let start = bad_start(v, starts);
    if Code::WORDS < v.records {
        return Err(Refusal::RecordCount);
    }
    if v.badword {
        return Err(Refusal::WordLength);
    }
    if Code::SYMBOLS < v.symbols {
        return Err(Refusal::CodeLength);
    }
    if width {
        return Err(Refusal::FieldCount);
    }
    if row {
        return Err(Refusal::RowEntry);
    }
    if start {
        return Err(Refusal::StartField);
    }
    Ok(())
}
