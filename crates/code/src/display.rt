// A refusal in words: what it says of the input that gets it.

use crate::Refusal;
use std::fmt;

impl fmt::Display for Refusal {
    fn fmt<W: fmt::Write>(&self, f: &mut fmt::Formatter<W>) -> fmt::Result {
        f.write_str(match self {
            Refusal::SheetLength => "it is empty or has more than 4,096 bytes",
            Refusal::SheetBytes =>
                "it has a byte other than 0-9, A-F, comma, CR, LF, or a CR or LF alone",
            Refusal::RecordCount => "it has more than 32 lines",
            Refusal::WordLength => "a first field is empty or has more than 16 digits",
            Refusal::CodeLength => "its words have more than 128 symbols in all",
            Refusal::FieldCount => "with n lines, each has to have n + 1 fields, or each n + 2",
            Refusal::RowEntry => "a row entry is not the single digit 0 or 1",
            Refusal::NotFromSheet => "no accepted sheet gives it",
            Refusal::UnknownWord => "a number in it is no word's",
            Refusal::ForbiddenPair => "a word in it may not come where it stands",
            Refusal::MessageLength => "it is too long; a text may have 16,384 bytes",
            Refusal::MessageSymbol => "a symbol in it is above 15",
            Refusal::ShortBuffer => "a buffer for it is too short",
            Refusal::NoReading => "it has no reading",
            Refusal::StartField =>
                "a start field, second in its line, is not the single digit 0 or 1",
            Refusal::BanRecord =>
                "it has a wrong byte, or a line that is not three word numbers, the last two different",
            Refusal::BanLimit => "words and copies are more than 32, or have more than 128 symbols",
            Refusal::ClassRecord =>
                "it has a wrong byte, a malformed line, or one that takes in B7 or a bracket",
            Refusal::ClassRange => "the lowest byte of a line is above its highest",
            Refusal::ClassOverlap => "a byte stands in two lines",
            Refusal::NoFiniteDelay => "its code has no finite delay",
        })
    }
}
