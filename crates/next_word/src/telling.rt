// The word that begins some permitted sequence of a plain code with the first symbols of a message.

ghost use Rattle.std.specs.Prelude.{◌≡◌, true, ◌+◌, ◌<◌, length};
ghost use Rattle.code.specs.Definitions.NextWords.{NextWord};
ghost use Rattle.code.specs.Definitions.Sheets.{limits};
ghost use Rattle.code.specs.Definitions.Tables.{table_of};
ghost use Rattle.read_sets.specs.Sets.{SetsOf};
ghost use Rattle.code.specs.Laws.WellFormed.{WellFormed};
ghost use Rattle.next_word.specs.Prefixes.{Opens};
ghost use Rattle.next_word.specs.Picked.{Picked, PickedBySets};

use code::{Code, Word};
use read_sets::Sets;

// The least word that may begin, if one may.
fn first_beginning(code: Code) -> Option<usize>
    requires { WellFormed limits code }
    ensures { Picked (λ x. (table_of code).begins x ≡ true) code.count result }
{
    code.begins[..code.count].iter().position(|mark| *mark == 1)
}

// The least word that begins a sequence with these symbols, by the sets of a code's words, if one does. If `cut`, the symbols may end inside a word.
fn find_word(
    having: &[u64],
    ends: &[u64],
    rows: &[u64],
    lengths: &[usize],
    n: usize,
    longest: usize,
    prefix: &[u8],
    cut: bool,
    work: &mut [u64],
) -> Option<usize>
    requires { SetsOf having.now ends.now rows.now lengths.now n longest × (length work.old ≡ length prefix.now + 1) × (0 < length prefix.now) }
    ensures { PickedBySets having.now ends.now rows.now lengths.now n longest cut prefix.now result }
{
    read_marks::mark_all(having, ends, rows, longest, prefix, cut, work);
    read_choices::seek(rows, n, work, 0, n, 0)
}

// The least word that begins a sequence of a code with these symbols, if one does. If `cut`, the symbols may end inside a word.
fn first_word(code: Code, prefix: &[u8], cut: bool, work: &mut [u64]) -> Option<usize>
    requires { WellFormed limits code × (length prefix.now < length work.old) × (0 < length prefix.now) }
    ensures { Picked (Opens (table_of code) cut prefix.now) code.count result }
{
    let mut having = [0u64; Sets::SYMBOLS];
    let mut ends = [0u64; Word::SYMBOLS];
    let mut rows = [0u64; Code::WORDS];
    let mut lengths = [0usize; Code::WORDS];
    let longest = read_sets::lay(code, &mut having, &mut ends, &mut rows, &mut lengths);
    let used = prefix.len() + 1;
    find_word(
        &having,
        &ends,
        &rows,
        &lengths,
        code.count,
        longest,
        prefix,
        cut,
        &mut work[..used],
    )
}

// The least word that begins a sequence with the same first `n` symbols as the message, if one does. No other symbol is looked at.
pub fn tell(code: Code, n: usize, message: &[u8], work: &mut [u64]) -> Option<usize>
    requires { WellFormed limits code × (n < length work.old) × (0 < length message.now) }
    ensures { Picked (NextWord (table_of code) n message.now) code.count result }
{
    if n == 0 {
        return first_beginning(code);
    }
    if n <= message.len() {
        return first_word(code, &message[..n], true, work);
    }
    first_word(code, message, false, work)
}
