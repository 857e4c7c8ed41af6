// How a word of a text is shown: with breaks between its syllables, or in brackets.

#![tactic(auto)]

ghost use Rattle.std.specs.Prelude.{[], ◌∷◌, ◌++◌, ◌+◌, ◌*◌, ◌≤◌, length};
ghost use Rattle.code.specs.Definitions.Lists.{join};
ghost use Rattle.code.specs.Definitions.Texts.{syllable_break, syllables};
ghost use Rattle.writing.specs.Puts.{Puts};
ghost use Rattle.writing.specs.Fields.{following};
ghost use Rattle.text_syllables.specs.Words.{letters_of, shown_as, Syllabled, Showable};
ghost use Rattle.text_syllables.specs.Lengths.{lengths_in};

use code::WordCount;
use writing::{put, put_field};

// A word with one reading, which has so many syllables; a word without a reading; a word with several. No Option: the last two are shown in brackets of their own.
#[derive(Clone, Copy)]
pub enum Kind {
    Split(WordCount),
    None,
    Several,
}

// A word of a text: its kind, its place and its length.
#[derive(Clone, Copy)]
pub struct TextWord {
    pub kind: Kind,
    pub offset: usize,
    pub length: usize,
}

// Syllable i of a word, after a break if it is not the first.
fn put_syllable(out: &mut [u8], at: usize, i: usize, syllable: &[u8]) -> usize
    requires { at + length (following (syllable_break ∷ []) i syllable.now) ≤ length out.old }
    ensures { Puts at (following (syllable_break ∷ []) i syllable.now) out.old out.new result }
{
    put_field(out, at, b"\xB7", i, syllable)
}

// A word's letters by its reading, with breaks between the syllables.
fn put_syllables(
    lengths: &[usize],
    reading: &[u8],
    letters: &[u8],
    out: &mut [u8],
    at: usize,
) -> usize
    requires { Syllabled lengths.now reading.now letters.now
        × (at + length (join (syllable_break ∷ []) (syllables (lengths_in lengths.now reading.now) letters.now)) ≤ length out.old) }
    ensures { Puts at (join (syllable_break ∷ []) (syllables (lengths_in lengths.now reading.now) letters.now))
        out.old out.new result }
{
    let mut next = at;
    let mut from: usize = 0;
    for i in 0..reading.len() {
        let x = reading[i] as usize;
        let to = from + lengths[x];
        next = put_syllable(out, next, i, &letters[from..to]);
        from = to;
    }
    next
}

// A word's letters between two brackets.
fn put_bracketed(lead: u8, letters: &[u8], tail: u8, out: &mut [u8], at: usize) -> usize
    requires { at + length letters.now + 2 ≤ length out.old }
    ensures { Puts at (lead ∷ (letters.now ++ (tail ∷ []))) out.old out.new result }
{
    out[at] = lead;
    let end = put(out, at + 1, letters);
    out[end] = tail;
    end + 1
}

// Shows a word by its record. The reading of a word that is split stands at the start of `reading`.
pub fn put_word(
    word: TextWord,
    lengths: &[usize],
    reading: &[u8],
    text: &[u8],
    out: &mut [u8],
    at: usize,
) -> usize
    requires { Showable word lengths.now reading.now text.now × (at + 2 * word.length + 1 ≤ length out.old) }
    ensures { Puts at (shown_as lengths.now reading.now word.kind (letters_of text.now word))
        out.old out.new result }
{
    let kind = word.kind;
    let from = word.offset;
    let to = from + word.length;
    let letters = &text[from..to];
    match kind {
        Kind::Split(count) => {
            let n = count.0;
            put_syllables(lengths, &reading[..n], letters, out, at)
        }
        Kind::None => put_bracketed(b'(', letters, b')', out, at),
        Kind::Several => put_bracketed(b'[', letters, b']', out, at),
    }
}
