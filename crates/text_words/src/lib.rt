// The words of a text one by one. The sets of the code's words are laid out once and serve all of them.

#![tactic(auto)]

ghost use Rattle.std.specs.Prelude.{◌≡◌, ◌<◌, length};
ghost use Rattle.text_words.specs.Kinds.{kind_of};
ghost use Rattle.text_words.specs.Records.{Served, Recorded};
ghost use Rattle.text_words.specs.Outputs.{SplitsBySets};
ghost use Rattle.text_words.specs.Rooms.{WordRooms, Rooms};

use code::{Classes, Readings};
use read_core::read_core;
use text_runs::{is_letter, lay_run};
use text_syllables::{Kind, TextWord, put_word};

fn kind_of(found: Option<Readings>) -> Kind
    ensures { result ≡ kind_of found }
{
    match found {
        None => Kind::None,
        Some(Readings::One(n)) => Kind::Split(n),
        Some(Readings::Two(_, _)) => Kind::Several,
    }
}

// The record of the word that stands at `at`. Where it has one reading, this is left at the start of `first`.
fn word_at(
    having: &[u64],
    ends: &[u64],
    rows: &[u64],
    lengths: &[usize],
    n: usize,
    longest: usize,
    classes: &[u8; Classes::BYTES],
    text: &[u8],
    at: usize,
    message: &mut [u8],
    first: &mut [u8],
    second: &mut [u8],
    work: &mut [u64],
) -> TextWord
    requires { Served having.now ends.now rows.now lengths.now n longest × (at < length text.now)
        × WordRooms text.now message.old first.old second.old work.old }
    ensures { Recorded having.now ends.now rows.now lengths.now n longest
        classes.now text.now at first.new result }
{
    let length = lay_run(classes, &text[at..], message);
    let used = length + 1;
    let found = read_core(
        having,
        ends,
        rows,
        lengths,
        n,
        longest,
        &message[..length],
        first,
        second,
        &mut work[..used],
    );
    let kind = kind_of(found);
    TextWord {
        kind: kind,
        offset: at,
        length: length,
    }
}

// Splits a text word by word, and copies what is no letter. Gives the length of the output.
pub fn split_words(
    having: &[u64],
    ends: &[u64],
    rows: &[u64],
    lengths: &[usize],
    n: usize,
    longest: usize,
    classes: &[u8; Classes::BYTES],
    text: &[u8],
    out: &mut [u8],
    message: &mut [u8],
    first: &mut [u8],
    second: &mut [u8],
    work: &mut [u64],
) -> usize
    requires { Served having.now ends.now rows.now lengths.now n longest
        × Rooms text.now out.old message.old first.old second.old work.old }
    ensures { SplitsBySets having.now ends.now rows.now lengths.now n longest
        classes.now text.now out.old out.new result }
{
    let mut pos: usize = 0;
    let mut end: usize = 0;
    // A while: a word is passed as a whole, whatever its length.
    while pos < text.len() {
        if is_letter(classes, text[pos]) {
            let word = word_at(
                having, ends, rows, lengths, n, longest, classes, text, pos, message, first,
                second, work,
            );
            end = put_word(word, lengths, first, text, out, end);
            pos += word.length;
        } else {
            out[end] = text[pos];
            end += 1;
            pos += 1;
        }
    }
    end
}
