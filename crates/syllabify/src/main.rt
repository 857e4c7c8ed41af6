// Splits the text on standard input into syllables: by the twelve Turkish types and letters, or by the code sheet in the file that its first argument names, and
// by the letters of the class sheet in the file that its second argument names. Writes the result on standard output.

#![tactic(auto)]

ghost use Rattle.std.specs.Prelude.{◌≡◌, ◌<◌, length, Ok};
ghost use Rattle.code.specs.Definitions.ClassSheets.{FromClassSheet};
ghost use Rattle.code.specs.Definitions.Sheets.{limits, FromSheet};
ghost use Rattle.io.specs.Counts.{IsPrefixLen};
ghost use Rattle.syllabify.specs.Answers.{code_given, classes_given, output_room, SplitsGiven, Printed, Answers, AnswersInput};

use class_sheet::take_classes;
use code::{ByteCount, ClassSheet, Code, Refusal, Sheet, Taken, TakenClasses, Text};
use printing::put_refused;
use program::refusals::tell_answer;
use program::{argument_count, goes_on, read_named, read_standard, write_standard};
use std::io::Stderr;
use well_enlarged::plain;

#[derive(Clone, Copy)]
pub struct Output {}

impl Output {
    // Bytes that the longest result may take: a text whose letters all stand alone.
    pub const BYTES: usize = 2 * Text::BYTES + 1;
}

// The code of a program that a sheet was named to, or was not.
fn give(named: bool, sheet: &[u8]) -> Taken
    ensures { result ≡ code_given named sheet.now }
{
    if named {
        return sheet::take_in(sheet);
    }
    let code = turkish::twelve();
    Taken {
        answer: Ok(()),
        code: code,
    }
}

// The classes of a program that a class sheet was named to, or was not.
fn give_classes(lettered: bool, sheet: &[u8]) -> TakenClasses
    ensures { result ≡ classes_given lettered sheet.now }
{
    if lettered {
        return take_classes(sheet);
    }
    let letters = turkish_letters::turkish();
    TakenClasses {
        answer: Ok(()),
        classes: letters,
    }
}

// The refusal of the class sheet, or the text split by an accepted code and its classes.
fn split_by(
    errors: Stderr,
    code: Code,
    letters: TakenClasses,
    text: &[u8],
    out: &mut [u8],
) -> Result<ByteCount, Refusal>
    requires { FromSheet limits code × (letters.answer ≡ Ok tt → FromClassSheet limits letters.classes) × (length out.old ≡ output_room) }
    ensures { SplitsGiven (record { answer = Ok tt; code = code }) letters text.now out.old out.new result }
{
    tell_answer(errors, b"syllabify: the class sheet", letters.answer);
    letters.answer?;
    let value = plain(code);
    let mut message = [0u8; Text::BYTES];
    let mut first = [0u8; Text::BYTES];
    let mut second = [0u8; Text::BYTES];
    let mut work = [0u64; Text::BYTES + 1];
    let split = text_split::split(
        value,
        letters.classes,
        text,
        out,
        &mut message,
        &mut first,
        &mut second,
        &mut work,
    );
    tell_answer(errors, b"syllabify: the text", split);
    split
}

// The refusal of the code sheet, which comes first; or what its code gives.
fn split_given(
    errors: Stderr,
    given: Taken,
    letters: TakenClasses,
    text: &[u8],
    out: &mut [u8],
) -> Result<ByteCount, Refusal>
    requires { (given.answer ≡ Ok tt → FromSheet limits given.code) × (letters.answer ≡ Ok tt → FromClassSheet limits letters.classes) × (length out.old ≡ output_room) }
    ensures { SplitsGiven given letters text.now out.old out.new result }
{
    let answer = given.answer;
    tell_answer(errors, b"syllabify: the code sheet", answer);
    answer?;
    split_by(errors, given.code, letters, text, out)
}

// Puts a refusal at the start of `out`, where an output stands already. Gives the number of bytes.
fn put_splitting(s: Result<ByteCount, Refusal>, out: &mut [u8]) -> usize
    requires { length out.old ≡ output_room }
    ensures { Printed out.old out.new result s }
{
    match s {
        Ok(n) => n.0,
        Err(refusal) => put_refused(refusal, out),
    }
}

// Puts what is printed for a text at the start of `out`, and gives its length. Each sheet is named or not.
fn answer(
    errors: Stderr,
    named: bool,
    sheet: &[u8],
    lettered: bool,
    classes: &[u8],
    text: &[u8],
    out: &mut [u8],
) -> usize
    requires { length out.old ≡ output_room }
    ensures { Answers named sheet.now lettered classes.now text.now out.old out.new result }
{
    let given = give(named, sheet);
    let letters = give_classes(lettered, classes);
    let s = split_given(errors, given, letters, text, out);
    put_splitting(s, out)
}

// The answer to the first n bytes of an input, the first k of a code sheet's file and the first j of a class sheet's. Each buffer is longer than what it may hold, so
// what fills it is refused: that is said of a buffer and of a number, which stand side by side here.
fn answer_input(
    errors: Stderr,
    named: bool,
    file: &[u8],
    k: usize,
    lettered: bool,
    classes: &[u8],
    j: usize,
    input: &[u8],
    n: usize,
    out: &mut [u8],
) -> usize
    requires { IsPrefixLen k file.now × IsPrefixLen j classes.now × IsPrefixLen n input.now × (limits.bytes < length file.now) × (limits.classes < length classes.now)
        × (limits.text < length input.now) × (length out.old ≡ output_room) }
    ensures { AnswersInput named file.now k lettered classes.now j input.now n out.old out.new result }
{
    answer(
        errors,
        named,
        &file[..k],
        lettered,
        &classes[..j],
        &input[..n],
        out,
    )
}

// The answer to standard input on standard output, by the sheets at the start of their buffers.
fn answer_standard(
    rt: &HostRuntime,
    named: bool,
    file: &[u8],
    k: usize,
    lettered: bool,
    classes: &[u8],
    j: usize,
)
    requires { IsPrefixLen k file.now × IsPrefixLen j classes.now × (limits.bytes < length file.now) × (limits.classes < length classes.now) }
{
    let mut input = [0u8; Text::BYTES + 1];
    let read = read_standard(rt, b"syllabify: cannot read standard input", &mut input);
    let Ok(n) = read else {
        return;
    };
    let mut out = [0u8; Output::BYTES];
    let length = answer_input(
        rt.stderr(),
        named,
        file,
        k,
        lettered,
        classes,
        j,
        &input,
        n,
        &mut out,
    );
    write_standard(
        rt,
        b"syllabify: cannot write standard output",
        &out[..length],
    );
}

// Splits standard input by the files that the arguments name. What cannot be read or written is told on standard error, and a sheet, a class sheet or a text
// that was not read whole gets no answer.
fn main(rt: HostRuntime) {
    let arguments = argument_count(&rt);
    let goes = goes_on(
        &rt,
        arguments,
        3,
        b"syllabify: cannot write standard output",
        b"usage: syllabify [SHEET.csv [CLASSES.classes]] < TEXT\nSplits the words of a text into syllables: by the Turkish types and letters, or by those of a code sheet and a class sheet. docs/TEXTS.md has the form of a text and of a class sheet, docs/GUIDE.md that of a code sheet, and what each refusal means.\n",
        b"syllabify takes at most two arguments; usage: syllabify [SHEET.csv [CLASSES.classes]] < TEXT\n",
    );
    if !goes {
        return;
    }
    let mut file = [0u8; Sheet::BYTES + 1];
    let listed = read_named(
        &rt,
        1,
        arguments,
        b"syllabify: cannot read the code sheet",
        &mut file,
    );
    let Ok(k) = listed else {
        return;
    };
    let mut classes = [0u8; ClassSheet::BYTES + 1];
    let classed = read_named(
        &rt,
        2,
        arguments,
        b"syllabify: cannot read the class sheet",
        &mut classes,
    );
    let Ok(j) = classed else {
        return;
    };
    answer_standard(&rt, 1 < arguments, &file, k, 2 < arguments, &classes, j);
}
