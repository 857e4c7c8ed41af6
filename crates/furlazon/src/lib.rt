// The operations for C and for Rust. A table crosses as its image, a flat run of bytes, and classes as their entries; an answer crosses as the number returned, 0
// for a result or the refusal's, and as entries of a lent buffer. The crate `furlazon_c` exports these functions under their names, and include/furlazon.h
// declares them for C.

#![tactic(auto)]

ghost use Rattle.furlazon.specs.Calls.{TakesIn, ClassesCall, TurkishCall, TurkishClassesCall, EnlargeCall, EncodeCall, ReadCall, NextCall, SplitCall, VerdictCall};

use c_answers::{is_short, number, put_answer};
use c_image::{Image, unpack};
use c_results::{classes_in, put_classes, put_table};
use c_short_answers::{
    untold_encoding, untold_naming, untold_reading, untold_splitting, untold_verdict,
};
use class_sheet::take_classes;
use code::{Classes, Refusal};
use well_enlarged::plain;

// Takes in a sheet. 0: accepted, and the table's image stands at the start of `table`. Else the refusal's number, and `table` is as it was.
pub fn furlazon_take_in(sheet: &[u8], table: &mut [u8]) -> u64
    ensures { TakesIn sheet.now table.old table.new result }
{
    let taken = sheet::take_in(sheet);
    let answer = taken.answer;
    let code = taken.code;
    let value = plain(code);
    put_table(answer, value, table)
}

// Takes in a class sheet. 0: accepted, and the class of each byte stands at the start of `classes`. Else the refusal's number, and `classes` is as it was.
pub fn furlazon_take_classes(sheet: &[u8], classes: &mut [u8]) -> u64
    ensures { ClassesCall sheet.now classes.old classes.new result }
{
    let taken = take_classes(sheet);
    let answer = taken.answer;
    let given = taken.classes;
    put_classes(answer, given, classes)
}

// Gives the built-in code of the twelve Turkish types. 0: its table's image stands at the start of `table`. Else 13, and `table` is as it was.
pub fn furlazon_turkish(table: &mut [u8]) -> u64
    ensures { TurkishCall table.old table.new result }
{
    let value = plain(turkish::twelve());
    put_table(Ok(()), value, table)
}

// Gives the built-in classes of the Turkish letters. 0: they stand at the start of `classes`. Else 13, and `classes` is as it was.
pub fn furlazon_turkish_classes(classes: &mut [u8]) -> u64
    ensures { TurkishClassesCall classes.old classes.new result }
{
    let given = turkish_letters::turkish();
    put_classes(Ok(()), given, classes)
}

// Enlarges a table by a list of bans that look two words back. 0: accepted, and the image of the enlarged table stands at the start of `enlarged`. Else the
// refusal's number, and `enlarged` is as it was.
pub fn furlazon_enlarge(table: &[u8], bans: &[u8], enlarged: &mut [u8]) -> u64
    ensures { EnlargeCall table.now bans.now enlarged.old enlarged.new result }
{
    if table.len() < Image::LENGTH {
        return number(Refusal::ShortBuffer);
    }
    let value = unpack(table);
    let e = ban_enlarge::enlarge(value, bans);
    let answer = e.answer;
    let larger = e.enlarged;
    put_table(answer, larger, enlarged)
}

// Encodes a sequence of word numbers. 0: the message stands at the start of `message`, and `answer` has its length. Else the refusal's number, and
// both are as they were.
pub fn furlazon_encode(table: &[u8], words: &[u8], message: &mut [u8], answer: &mut [u64]) -> u64
    ensures { EncodeCall table.now words.now message.old answer.old
        message.new answer.new result }
{
    if table.len() < Image::LENGTH {
        return number(Refusal::ShortBuffer);
    }
    let value = unpack(table);
    if is_short(answer.len()) {
        return untold_encoding(value, words);
    }
    let e = encoding::encode(value, words, message);
    put_answer(e, answer)
}

// Reads a message. 0: the only reading or the first two stand at the start of `first` and `second`; `answer` has 1 or 2, and their lengths. Else the
// refusal's number, and the buffers are as they were, except that 14 leaves `work` all zero.
pub fn furlazon_read(
    table: &[u8],
    message: &[u8],
    first: &mut [u8],
    second: &mut [u8],
    work: &mut [u64],
    answer: &mut [u64],
) -> u64
    ensures { ReadCall table.now message.now first.old second.old work.old
        answer.old first.new second.new work.new answer.new result }
{
    if table.len() < Image::LENGTH {
        return number(Refusal::ShortBuffer);
    }
    let value = unpack(table);
    if is_short(answer.len()) {
        return untold_reading(value, message);
    }
    let e = reading::read(value, message, first, second, work);
    put_answer(e, answer)
}

// Names the next word of a message from as many symbols as the table's delay. 0: `answer` has its number, and `work` is all zero. Else the refusal's number, the first
// that holds of 8, 11, 13, 21, 12 and 14; `answer` is as it was, and so is `work` after 8, 11 and 13, but 21, 12 and 14 leave it all zero.
pub fn furlazon_next(table: &[u8], message: &[u8], work: &mut [u64], answer: &mut [u64]) -> u64
    ensures { NextCall table.now message.now work.old answer.old work.new answer.new result }
{
    if table.len() < Image::LENGTH {
        return number(Refusal::ShortBuffer);
    }
    let value = unpack(table);
    if is_short(answer.len()) {
        return untold_naming(value, message);
    }
    let e = next_word::next_word(value, message, work);
    put_answer(e, answer)
}

// Gives the verdict on a table. 0: `answer` has 1, 2 or 3 for ambiguous, decipherable with a delay, or without bound, and the lengths or the delay. For
// an ambiguous code the message and its first two readings stand at the start of their buffers. Else the refusal's number, and nothing is changed.
pub fn furlazon_verdict(
    table: &[u8],
    message: &mut [u8],
    first: &mut [u8],
    second: &mut [u8],
    work: &mut [u64],
    answer: &mut [u64],
) -> u64
    ensures { VerdictCall table.now message.old first.old second.old work.old
        answer.old message.new first.new second.new work.new answer.new result }
{
    if table.len() < Image::LENGTH {
        return number(Refusal::ShortBuffer);
    }
    let value = unpack(table);
    if is_short(answer.len()) {
        return untold_verdict(value);
    }
    let e = decipher::verdict(value, message, first, second, work);
    put_answer(e, answer)
}

// Splits a text of letters of these classes into syllables. 0: the output stands at the start of `out`, `answer` has its length, and `message`, `first`, `second` and
// `work` are all zero. Else the refusal's number, and nothing is changed.
pub fn furlazon_split(
    table: &[u8],
    classes: &[u8],
    text: &[u8],
    out: &mut [u8],
    message: &mut [u8],
    first: &mut [u8],
    second: &mut [u8],
    work: &mut [u64],
    answer: &mut [u64],
) -> u64
    ensures { SplitCall table.now classes.now text.now out.old message.old first.old
        second.old work.old answer.old out.new message.new first.new second.new work.new
        answer.new result }
{
    if table.len() < Image::LENGTH {
        return number(Refusal::ShortBuffer);
    }
    if classes.len() < Classes::BYTES {
        return number(Refusal::ShortBuffer);
    }
    let value = unpack(table);
    let letters = classes_in(classes);
    if is_short(answer.len()) {
        return untold_splitting(value, letters, text);
    }
    let e = text_split::split(value, letters, text, out, message, first, second, work);
    put_answer(e, answer)
}
