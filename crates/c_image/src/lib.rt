// The image of a code with copies: the bytes in which a table crosses to C or Rust. For each of the 32 words its 16 symbols and then its length; then the
// 32 rows of 32 entries each; then the 32 start marks; then the count; then how many words are originals, the 32 origins and the 32 words behind.

#![tactic(auto)]

ghost use Rattle.std.specs.Prelude.{◌≡◌, ◌+◌, ◌≤◌, length};
ghost use Rattle.std.proofs.lemmas.List.Edits.{sets};
ghost use Rattle.code.specs.Definitions.Operations.{written};
ghost use Rattle.code.specs.Definitions.Sheets.{limits};
ghost use Rattle.c_image.specs.Image.{word_width, rows_place, code_length, image_length, word_bytes, rows_bytes, words_bytes, code_bytes, image_of, PackableCode, Packable, word_in, row_in, code_in, enlarged_in};

use code::{Code, Enlarged, Row, Word};
use copying::copy_at;
use std::array;

#[derive(Clone, Copy)]
pub struct Image {}

impl Image {
    // Bytes a word: its symbols and its length.
    pub const WORD: usize = Word::SYMBOLS + 1;
    // Where the first row begins.
    pub const ROWS: usize = Code::WORDS * Image::WORD;
    // Where the first start mark stands.
    pub const MARKS: usize = Image::ROWS + Code::WORDS * Code::WORDS;
    // Where the count stands.
    pub const COUNT: usize = Image::MARKS + Code::WORDS;
    // Where the number of originals stands, behind the bytes of the code.
    pub const ORIGINALS: usize = Image::COUNT + 1;
    // Where the first origin stands.
    pub const ORIGINS: usize = Image::ORIGINALS + 1;
    // Where the first word behind stands.
    pub const BEHIND: usize = Image::ORIGINS + Code::WORDS;
    // Bytes an image.
    pub const LENGTH: usize = Image::BEHIND + Code::WORDS;
}

// Stores a word from `at` on.
fn put_word(w: Word, table: &mut [u8], at: usize)
    requires { (w.len ≤ 255) × (at + word_width ≤ length table.old) }
    ensures { table.new ≡ sets table.old at (word_bytes w) }
{
    let symbols = w.symbols;
    copy_at(table, at, &symbols, Word::SYMBOLS);
    table[at + Word::SYMBOLS] = w.len as u8;
}

// Stores the words at the start.
fn put_words(code: Code, table: &mut [u8])
    requires { PackableCode code × (code_length ≤ length table.old) }
    ensures { table.new ≡ sets table.old 0 (words_bytes code.words) }
{
    for k in 0..Code::WORDS {
        put_word(code.words[k], table, k * Image::WORD);
    }
}

// Stores the rows behind the words.
fn put_rows(code: Code, table: &mut [u8])
    requires { PackableCode code × (code_length ≤ length table.old) }
    ensures { table.new ≡ sets table.old rows_place (rows_bytes code.rows) }
{
    for k in 0..Code::WORDS {
        let entries = code.rows[k].entries;
        copy_at(table, Image::ROWS + k * Code::WORDS, &entries, Code::WORDS);
    }
}

// Stores a code at the start.
fn pack_code(code: Code, table: &mut [u8])
    requires { PackableCode code × (code_length ≤ length table.old) }
    ensures { table.new ≡ sets table.old 0 (code_bytes code) }
{
    put_words(code, table);
    put_rows(code, table);
    let begins = code.begins;
    copy_at(table, Image::MARKS, &begins, Code::WORDS);
    table[Image::COUNT] = code.count as u8;
}

// Writes the image of a code with copies at the start of a buffer.
pub fn pack(e: Enlarged, table: &mut [u8])
    requires { Packable e × (image_length ≤ length table.old) }
    ensures { table.new ≡ written (image_of e) table.old }
{
    let code = e.code;
    pack_code(code, table);
    table[Image::ORIGINALS] = e.originals as u8;
    let origins = e.origins;
    copy_at(table, Image::ORIGINS, &origins, Code::WORDS);
    let behind = e.behind;
    copy_at(table, Image::BEHIND, &behind, Code::WORDS);
}

// The word that stands from `at` on.
fn word_in(table: &[u8], at: usize) -> Word
    requires { at + word_width ≤ length table.now }
    ensures { result ≡ word_in table.now at }
{
    let mut symbols = [0u8; Word::SYMBOLS];
    symbols.copy_from_slice(&table[at..at + Word::SYMBOLS]);
    Word {
        symbols,
        len: usize::from(table[at + Word::SYMBOLS]),
    }
}

// The row, or the bytes of all words, that stand from `at` on.
fn row_in(table: &[u8], at: usize) -> Row
    requires { at + limits.words ≤ length table.now }
    ensures { result ≡ row_in table.now at }
{
    let mut entries = [0u8; Code::WORDS];
    entries.copy_from_slice(&table[at..at + Code::WORDS]);
    Row { entries }
}

// The code that stands at the start of the bytes.
fn unpack_code(table: &[u8]) -> Code
    requires { code_length ≤ length table.now }
    ensures { result ≡ code_in table.now }
{
    let words = array::from_fn(|k| word_in(table, k * Image::WORD));
    let rows = array::from_fn(|k| row_in(table, Image::ROWS + k * Code::WORDS));
    let marks = row_in(table, Image::MARKS);
    let begins = marks.entries;
    Code {
        words,
        rows,
        begins,
        count: usize::from(table[Image::COUNT]),
    }
}

// The code with copies whose image stands at the start of the bytes.
pub fn unpack(table: &[u8]) -> Enlarged
    requires { image_length ≤ length table.now }
    ensures { result ≡ enlarged_in table.now }
{
    let code = unpack_code(table);
    let words = row_in(table, Image::ORIGINS);
    let others = row_in(table, Image::BEHIND);
    let origins = words.entries;
    let behind = others.entries;
    Enlarged {
        code,
        originals: usize::from(table[Image::ORIGINALS]),
        origins,
        behind,
    }
}
