// The two rules that say which type never follows which, and the row of the follow matrix that they give.

ghost use Rattle.std.specs.Prelude.{◌≡◌, [], ◌<◌, length, get_or};
ghost use Rattle.code.specs.Definitions.Tables.{symbols_of};
ghost use Rattle.turkish.specs.Types.{types, stands_at, vowel_rule, consonant_rule, entry_for, matrix};
ghost use Rattle.turkish_matrix.specs.Rules.{Spelt};

use code::Word;
use turkish::Types;

// Whether symbol k of a word is this one; past its end there is none.
fn stands_at(word: Word, k: usize, symbol: u8) -> bool
    requires { Spelt word }
    ensures { result ≡ stands_at (symbols_of word) k symbol }
{
    k < word.len && word.symbols[k] == symbol
}

// No vowel-first type after a consonant-last one: whether this forbids x after y.
fn vowel_rule(x: Word, y: Word) -> bool
    requires { Spelt x × Spelt y }
    ensures { result ≡ vowel_rule (symbols_of x) (symbols_of y) }
{
    let vowel_first = stands_at(x, 0, Types::VOWEL);
    let consonant_last = stands_at(y, y.len - 1, Types::CONSONANT);
    vowel_first && consonant_last
}

// No type with two or more consonants first after a vowel-last one.
fn consonant_rule(x: Word, y: Word) -> bool
    requires { Spelt x × Spelt y }
    ensures { result ≡ consonant_rule (symbols_of x) (symbols_of y) }
{
    let consonant_first = stands_at(x, 0, Types::CONSONANT);
    let consonant_second = stands_at(x, 1, Types::CONSONANT);
    let vowel_last = stands_at(y, y.len - 1, Types::VOWEL);
    consonant_first && consonant_second && vowel_last
}

// The entry for x after y: 0 exactly where one of the rules forbids it.
fn entry_for(x: Word, y: Word) -> u8
    requires { Spelt x × Spelt y }
    ensures { result ≡ entry_for (symbols_of x) (symbols_of y) }
{
    let by_vowel = vowel_rule(x, y);
    let by_consonants = consonant_rule(x, y);
    u8::from(!(by_vowel || by_consonants))
}

// Row x of the follow matrix.
pub fn row_of(x: usize) -> [u8; Types::COUNT]
    requires { x < length types }
    ensures { result ≡ get_or (matrix types) x [] }
{
    let words = turkish::words();
    // No `from_fn`: that its closure may read the words was not proved.
    let mut row = [0u8; Types::COUNT];
    for y in 0..Types::COUNT {
        row[y] = entry_for(words[x], words[y]);
    }
    row
}
