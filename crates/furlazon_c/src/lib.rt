// The functions for C: each export calls the function of `furlazon` that has its name, and promises the same. include/furlazon.h declares them.

#![tactic(auto)]

ghost use Rattle.furlazon.specs.Calls.{TakesIn, ClassesCall, TurkishCall, TurkishClassesCall, EnlargeCall, EncodeCall, ReadCall, NextCall, SplitCall, VerdictCall};

// Takes in a sheet.
#[unsafe(no_mangle)]
pub extern "C" fn furlazon_take_in(sheet: &[u8], table: &mut [u8]) -> u64
    ensures { TakesIn sheet.now table.old table.new result }
{
    furlazon::furlazon_take_in(sheet, table)
}

// Takes in a class sheet.
#[unsafe(no_mangle)]
pub extern "C" fn furlazon_take_classes(sheet: &[u8], classes: &mut [u8]) -> u64
    ensures { ClassesCall sheet.now classes.old classes.new result }
{
    furlazon::furlazon_take_classes(sheet, classes)
}

// Gives the built-in code of the twelve Turkish types.
#[unsafe(no_mangle)]
pub extern "C" fn furlazon_turkish(table: &mut [u8]) -> u64
    ensures { TurkishCall table.old table.new result }
{
    furlazon::furlazon_turkish(table)
}

// Gives the built-in classes of the Turkish letters.
#[unsafe(no_mangle)]
pub extern "C" fn furlazon_turkish_classes(classes: &mut [u8]) -> u64
    ensures { TurkishClassesCall classes.old classes.new result }
{
    furlazon::furlazon_turkish_classes(classes)
}

// Enlarges a table by a list of bans that look two words back.
#[unsafe(no_mangle)]
pub extern "C" fn furlazon_enlarge(table: &[u8], bans: &[u8], enlarged: &mut [u8]) -> u64
    ensures { EnlargeCall table.now bans.now enlarged.old enlarged.new result }
{
    furlazon::furlazon_enlarge(table, bans, enlarged)
}

// Encodes a sequence of word numbers.
#[unsafe(no_mangle)]
pub extern "C" fn furlazon_encode(
    table: &[u8],
    words: &[u8],
    message: &mut [u8],
    answer: &mut [u64],
) -> u64
    ensures { EncodeCall table.now words.now message.old answer.old
        message.new answer.new result }
{
    furlazon::furlazon_encode(table, words, message, answer)
}

// Reads a message.
#[unsafe(no_mangle)]
pub extern "C" fn furlazon_read(
    table: &[u8],
    message: &[u8],
    first: &mut [u8],
    second: &mut [u8],
    work: &mut [u64],
    answer: &mut [u64],
) -> u64
    ensures { ReadCall table.now message.now first.old second.old work.old
        answer.old first.new second.new work.new answer.new result }
{
    furlazon::furlazon_read(table, message, first, second, work, answer)
}

// Names the next word of a message from as many symbols as the table's delay.
#[unsafe(no_mangle)]
pub extern "C" fn furlazon_next(
    table: &[u8],
    message: &[u8],
    work: &mut [u64],
    answer: &mut [u64],
) -> u64
    ensures { NextCall table.now message.now work.old answer.old work.new answer.new result }
{
    furlazon::furlazon_next(table, message, work, answer)
}

// Gives the verdict on a table.
#[unsafe(no_mangle)]
pub extern "C" fn furlazon_verdict(
    table: &[u8],
    message: &mut [u8],
    first: &mut [u8],
    second: &mut [u8],
    work: &mut [u64],
    answer: &mut [u64],
) -> u64
    ensures { VerdictCall table.now message.old first.old second.old work.old
        answer.old message.new first.new second.new work.new answer.new result }
{
    furlazon::furlazon_verdict(table, message, first, second, work, answer)
}

// Splits a text of letters of these classes into syllables.
#[unsafe(no_mangle)]
pub extern "C" fn furlazon_split(
    table: &[u8],
    classes: &[u8],
    text: &[u8],
    out: &mut [u8],
    message: &mut [u8],
    first: &mut [u8],
    second: &mut [u8],
    work: &mut [u64],
    answer: &mut [u64],
) -> u64
    ensures { SplitCall table.now classes.now text.now out.old message.old first.old
        second.old work.old answer.old out.new message.new first.new second.new work.new
        answer.new result }
{
    furlazon::furlazon_split(
        table, classes, text, out, message, first, second, work, answer,
    )
}
