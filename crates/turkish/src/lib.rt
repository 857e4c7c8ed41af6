// The twelve syllable types of Turkish (source 000, table 1) and which may follow which, as constants, and the code that they make.

#![tactic(auto)]

ghost use Rattle.std.specs.Prelude.{◌≡◌, map, ◌≤◌, length};
ghost use Rattle.code.specs.Definitions.Sheets.{limits};
ghost use Rattle.turkish.specs.Types.{types, matrix, word_for, row_for, row_of_types, code_of_types};

use code::blanks::blank_code;
use code::{Code, Row, Word};

#[derive(Clone, Copy)]
pub struct Types {}

impl Types {
    // Types in the table.
    pub const COUNT: usize = 12;
    // The symbols of a type.
    pub const VOWEL: u8 = 0;

    pub const CONSONANT: u8 = 1;
}

// Row X of the follow matrix: entry Y is 1 if type X may come immediately after type Y, else 0.
#[derive(Clone, Copy)]
pub struct TypeRow(pub [u8; Types::COUNT]);

// Types A to L; 0 is a vowel, 1 a consonant.
pub const WORDS: [Word; Types::COUNT] = [
    Word {
        symbols: [0, 0, 0, 0, 0, 0, 0, 0, 0, 0, 0, 0, 0, 0, 0, 0],
        len: 1,
    },
    Word {
        symbols: [1, 0, 0, 0, 0, 0, 0, 0, 0, 0, 0, 0, 0, 0, 0, 0],
        len: 2,
    },
    Word {
        symbols: [0, 1, 0, 0, 0, 0, 0, 0, 0, 0, 0, 0, 0, 0, 0, 0],
        len: 2,
    },
    Word {
        symbols: [1, 0, 1, 0, 0, 0, 0, 0, 0, 0, 0, 0, 0, 0, 0, 0],
        len: 3,
    },
    Word {
        symbols: [0, 1, 1, 0, 0, 0, 0, 0, 0, 0, 0, 0, 0, 0, 0, 0],
        len: 3,
    },
    Word {
        symbols: [1, 0, 1, 1, 0, 0, 0, 0, 0, 0, 0, 0, 0, 0, 0, 0],
        len: 4,
    },
    Word {
        symbols: [1, 1, 0, 0, 0, 0, 0, 0, 0, 0, 0, 0, 0, 0, 0, 0],
        len: 3,
    },
    Word {
        symbols: [1, 1, 0, 1, 0, 0, 0, 0, 0, 0, 0, 0, 0, 0, 0, 0],
        len: 4,
    },
    Word {
        symbols: [1, 1, 1, 0, 0, 0, 0, 0, 0, 0, 0, 0, 0, 0, 0, 0],
        len: 4,
    },
    Word {
        symbols: [1, 1, 1, 0, 1, 0, 0, 0, 0, 0, 0, 0, 0, 0, 0, 0],
        len: 5,
    },
    Word {
        symbols: [1, 1, 0, 1, 1, 0, 0, 0, 0, 0, 0, 0, 0, 0, 0, 0],
        len: 5,
    },
    Word {
        symbols: [1, 0, 1, 1, 1, 0, 0, 0, 0, 0, 0, 0, 0, 0, 0, 0],
        len: 5,
    },
];

// The program `turkish_matrix` prints this table from the two rules.
pub const ROWS: [TypeRow; Types::COUNT] = [
    TypeRow([1, 1, 0, 0, 0, 0, 1, 0, 1, 0, 0, 0]), // A
    TypeRow([1, 1, 1, 1, 1, 1, 1, 1, 1, 1, 1, 1]), // B
    TypeRow([1, 1, 0, 0, 0, 0, 1, 0, 1, 0, 0, 0]), // C
    TypeRow([1, 1, 1, 1, 1, 1, 1, 1, 1, 1, 1, 1]), // D
    TypeRow([1, 1, 0, 0, 0, 0, 1, 0, 1, 0, 0, 0]), // E
    TypeRow([1, 1, 1, 1, 1, 1, 1, 1, 1, 1, 1, 1]), // F
    TypeRow([0, 0, 1, 1, 1, 1, 0, 1, 0, 1, 1, 1]), // G
    TypeRow([0, 0, 1, 1, 1, 1, 0, 1, 0, 1, 1, 1]), // H
    TypeRow([0, 0, 1, 1, 1, 1, 0, 1, 0, 1, 1, 1]), // I
    TypeRow([0, 0, 1, 1, 1, 1, 0, 1, 0, 1, 1, 1]), // J
    TypeRow([0, 0, 1, 1, 1, 1, 0, 1, 0, 1, 1, 1]), // K
    TypeRow([1, 1, 1, 1, 1, 1, 1, 1, 1, 1, 1, 1]), // L
];

pub fn words() -> [Word; Types::COUNT]
    ensures { result ≡ map (word_for limits) types }
{
    WORDS
}

// Every entry is 0 exactly where one of the two rules forbids.
pub fn rows() -> [TypeRow; Types::COUNT]
    ensures { result ≡ map row_of_types (matrix types) }
{
    ROWS
}

// A row of the matrix with room for as many words as a code may have.
fn widen(entries: &[u8]) -> Row
    requires { length entries.now ≤ limits.words }
    ensures { result ≡ row_for limits entries.now }
{
    let mut padded = [0u8; Code::WORDS];
    padded[..entries.len()].copy_from_slice(entries);
    Row { entries: padded }
}

// The code of the twelve types, each of which may begin a message.
pub fn twelve() -> Code
    ensures { result ≡ code_of_types limits types }
{
    let words = words();
    let rows = rows();
    let mut code = blank_code();
    for x in 0..Types::COUNT {
        code.words[x] = words[x];
        code.rows[x] = widen(&rows[x].0);
        code.begins[x] = 1;
    }
    code.count = Types::COUNT;
    code
}
