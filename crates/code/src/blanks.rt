// The blank table, from which every table is made: no words, and all zero.

ghost use Rattle.std.specs.Prelude.{◌≡◌, []};
ghost use Rattle.code.specs.Definitions.Sheets.{limits, word_of, row_of, blank_code};

use crate::{Code, Row, Word};

pub fn blank_word() -> Word
    ensures { result ≡ word_of limits [] }
{
    Word {
        symbols: [0; Word::SYMBOLS],
        len: 0,
    }
}

pub fn blank_row() -> Row
    ensures { result ≡ row_of limits 1 [] }
{
    Row {
        entries: [0; Code::WORDS],
    }
}

pub fn blank_code() -> Code
    ensures { result ≡ blank_code limits }
{
    let words = [blank_word(); Code::WORDS];
    let rows = [blank_row(); Code::WORDS];
    Code {
        words: words,
        rows: rows,
        begins: [0; Code::WORDS],
        count: 0,
    }
}
