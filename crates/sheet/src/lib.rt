// Taking in a code sheet: for every byte string the lowest refusal that holds, or the table that the sheet gives. Three passes over the bytes:
// which bytes they are (`csv_records`), what the records amount to (`sheet_survey`), and, for an accepted sheet, the table (`sheet_table`).

#![tactic(auto)]

ghost use Rattle.std.specs.Prelude.{◌≡◌, ◌≤◌, length};
ghost use Rattle.code.specs.Definitions.Sheets.{limits, refused_by, taken, taken_grid};
ghost use Rattle.code.specs.Laws.Clean.{Clean, record_fields};

use code::blanks::blank_code;
use code::{Refusal, Sheet, Taken};
use csv_records::{bad_bytes, body_len};
use sheet_survey::{has_starts, judge, survey_all};
use sheet_table::build;

// A refused sheet gives the blank table.
fn refuse(r: Refusal) -> Taken
    ensures { result ≡ refused_by limits r }
{
    Taken {
        answer: Err(r),
        code: blank_code(),
    }
}

// A sheet without a final CR LF, and without refusals 1 and 2.
fn take_body(s: &[u8]) -> Taken
    requires { Clean s.now × (length s.now ≤ 4096) }
    ensures { result ≡ taken_grid limits (record_fields s.now) }
{
    let v = survey_all(s);
    let starts = has_starts(v);
    let answer = judge(v, starts);
    match answer {
        Err(r) => refuse(r),
        Ok(()) => Taken {
            answer: Ok(()),
            code: build(s, v.records, starts),
        },
    }
}

// Takes in a sheet of any bytes. The answer is the lowest refusal that holds, of 1 to 7 and 15, with the blank table; or that the sheet is accepted,
// with its table.
pub fn take_in(sheet: &[u8]) -> Taken
    ensures { result ≡ taken limits sheet.now }
{
    let n = sheet.len();
    if n == 0 {
        return refuse(Refusal::SheetLength);
    }
    if Sheet::BYTES < n {
        return refuse(Refusal::SheetLength);
    }
    if bad_bytes(sheet) {
        return refuse(Refusal::SheetBytes);
    }
    let e = body_len(sheet);
    take_body(&sheet[..e])
}
