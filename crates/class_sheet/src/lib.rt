// Taking in a class sheet: for every byte string the lowest refusal that holds, or the classes that the sheet gives. One pass says which bytes they are, and one
// goes from record to record.

#![tactic(auto)]

ghost use Rattle.std.specs.Prelude.{◌≡◌, ◌<◌, length, replicate};
ghost use Rattle.code.specs.Definitions.ClassSheets.{different_bytes, no_classes, taken_classes};
ghost use Rattle.code.specs.Definitions.Lists.{any};
ghost use Rattle.code.specs.Definitions.Sheets.{limits};
ghost use Rattle.code.specs.Definitions.Texts.{other, signs};
ghost use Rattle.code.specs.Laws.Clean.{Clean, record_fields};
ghost use Rattle.class_sheet.specs.Filling.{from_to, Gives, FilledBy};
ghost use Rattle.class_sheet.specs.Records.{taken_records, judged, Answers};

use class_records::{ByteRange, read_range};
use code::{ClassSheet, Classes, Refusal, TakenClasses};
use csv_records::{bad_bytes, body_len};

// The bytes that are put into a text: B7 and the brackets.
pub const SIGNS: [u8; 5] = [0xB7, b'(', b')', b'[', b']'];

// Whether a range takes in a byte.
fn takes_in(range: ByteRange, b: u8) -> bool
    ensures { result ≡ from_to range.lowest range.highest b }
{
    range.lowest <= b && b <= range.highest
}

// Whether a range takes in B7 or a bracket.
fn takes_sign(range: ByteRange) -> bool
    ensures { result ≡ any (from_to range.lowest range.highest) signs }
{
    SIGNS.iter().any(|b| takes_in(range, *b))
}

// Gives a byte its class, if it has none yet; says whether it had one.
fn give(entries: &mut [u8], b: usize, symbol: u8) -> bool
    requires { b < length entries.old }
    ensures { Gives b symbol entries.old entries.new result }
{
    if entries[b] < Classes::OTHER {
        return true;
    }
    entries[b] = symbol;
    false
}

// The same for the bytes of a range.
fn fill(entries: &mut [u8], range: ByteRange) -> bool
    requires { length entries.old ≡ different_bytes }
    ensures { FilledBy (from_to range.lowest range.highest) range.symbol entries.old entries.new result }
{
    let mut twice = false;
    for b in range.lowest..=range.highest {
        twice |= give(entries, b as usize, range.symbol);
    }
    twice
}

// The lowest refusal, by what was seen: a record that is malformed or takes in a sign, a range that is upside down, a byte in two records.
fn judge(bad: bool, upside: bool, twice: bool) -> Result<(), Refusal>
    ensures { result ≡ judged bad upside twice }
{
    if bad {
        return Err(Refusal::ClassRecord);
    }
    if upside {
        return Err(Refusal::ClassRange);
    }
    if twice {
        return Err(Refusal::ClassOverlap);
    }
    Ok(())
}

// The answer to a sheet without wrong bytes and without a final CR LF. An accepted one's classes stand in `entries`, where no byte was a letter.
fn take_records(s: &[u8], entries: &mut [u8]) -> Result<(), Refusal>
    requires { Clean s.now × (entries.old ≡ replicate different_bytes other) }
    ensures { Answers (record_fields s.now) entries.new result }
{
    let mut upside = false;
    let mut twice = false;
    let mut at = 0;
    // A while: a record says where the next one begins.
    while at <= s.len() {
        let range = match read_range(s, at) {
            Some(range) if !takes_sign(range) => range,
            _ => return judge(true, upside, twice),
        };
        upside |= range.highest < range.lowest;
        twice |= fill(entries, range);
        at = range.next;
    }
    judge(false, upside, twice)
}

// A refused sheet gives the classes without any letter.
fn refuse(r: Refusal) -> TakenClasses
    ensures { result ≡ no_classes r }
{
    let classes = Classes {
        entries: [Classes::OTHER; Classes::BYTES],
    };
    TakenClasses {
        answer: Err(r),
        classes: classes,
    }
}

// A sheet without a final CR LF, without wrong bytes and of right length.
fn take_body(s: &[u8]) -> TakenClasses
    requires { Clean s.now }
    ensures { result ≡ taken_records (record_fields s.now) }
{
    let mut entries = [Classes::OTHER; Classes::BYTES];
    let answer = take_records(s, &mut entries);
    match answer {
        Err(r) => refuse(r),
        Ok(()) => TakenClasses {
            answer: Ok(()),
            classes: Classes { entries: entries },
        },
    }
}

// Takes in a class sheet of any bytes. The answer is the lowest refusal that holds, of 1 and 18 to 20, with the classes without any letter; or that the sheet is
// accepted, with its classes.
#[tactic(auto, using(crate::proofs::Laws::Taking::way_long))]
pub fn take_classes(sheet: &[u8]) -> TakenClasses
    ensures { result ≡ taken_classes limits sheet.now }
{
    let n = sheet.len();
    if n == 0 {
        return refuse(Refusal::SheetLength);
    }
    if ClassSheet::BYTES < n {
        return refuse(Refusal::SheetLength);
    }
    if bad_bytes(sheet) {
        return refuse(Refusal::ClassRecord);
    }
    let e = body_len(sheet);
    take_body(&sheet[..e])
}
