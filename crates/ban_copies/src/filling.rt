// The words and the matrix of a code with copies: which word may come after which, row by row.

ghost use Rattle.std.specs.Prelude.{◌≡◌, ◌+◌, ◌*◌, ◌≤◌, ◌<◌, length, get_or};
ghost use Rattle.code.specs.Definitions.Lists.{tabulate};
ghost use Rattle.code.specs.Definitions.Bans.{banned_by, copies_of, stands_after};
ghost use Rattle.code.specs.Definitions.Enlarged.{enlarged_code};
ghost use Rattle.code.specs.Definitions.Sheets.{limits};
ghost use Rattle.ban_theory.specs.Triples.{bans_from};
ghost use Rattle.code.specs.Laws.WellFormed.{WellFormed};
ghost use Rattle.ban_copies.specs.Held.{held, Held};
ghost use Rattle.ban_copies.specs.Coming.{Asked, allowed, comes, entry_by};

use crate::Copies;
use crate::adding::has_copy;
use code::{Code, Row};

// Whether one of the bans in `numbers` says that x never follows y then z.
fn is_banned(numbers: &[u8], bans: usize, x: u8, y: u8, z: u8) -> bool
    requires { 3 * bans ≤ length numbers.now }
    ensures { result ≡ banned_by (bans_from numbers.now bans) x y z }
{
    (0..bans).any(|i| numbers[3 * i] == x && numbers[3 * i + 1] == y && numbers[3 * i + 2] == z)
}

// The number of the word of which x is a copy, or x itself.
fn origin_of(copies: Copies, x: usize) -> usize
    requires { Held copies.originals (held copies) copies × (x < copies.originals + copies.number) }
    ensures { (result ≡ get_or copies.origins x 0) × (result < copies.originals) }
{
    copies.origins[x] as usize
}

// Whether the copies let x stand after the word y and its copies.
fn stands_after(copies: Copies, x: usize, y: u8) -> bool
    requires { Held copies.originals (held copies) copies × (x < copies.originals + copies.number) }
    ensures { result ≡ stands_after copies.originals (held copies) x y }
{
    if x < copies.originals {
        return !has_copy(&copies, y, copies.origins[x]);
    }
    copies.behind[x] == y
}

// Whether no ban forbids x after y.
fn is_allowed(copies: Copies, numbers: &[u8], bans: usize, x: usize, y: usize) -> bool
    requires { Asked numbers.now bans copies x y }
    ensures { result ≡ allowed copies.originals (bans_from numbers.now bans) x y }
{
    if y < copies.originals {
        return true;
    }
    !is_banned(
        numbers,
        bans,
        copies.origins[x],
        copies.behind[y],
        copies.origins[y],
    )
}

// Whether x may come immediately after y; `row` is that of the word of which x is a copy.
fn may_come(row: Row, copies: Copies, numbers: &[u8], bans: usize, x: usize, y: usize) -> bool
    requires { Asked numbers.now bans copies x y }
    ensures { result ≡ comes row.entries copies.originals (bans_from numbers.now bans) x y }
{
    let last = origin_of(copies, y);
    if row.entries[last] != 1 {
        return false;
    }
    if !stands_after(copies, x, last as u8) {
        return false;
    }
    is_allowed(copies, numbers, bans, x, y)
}

// Row x of the matrix; `row` is that of the word of which x is a copy.
fn fill_row(row: Row, copies: Copies, numbers: &[u8], bans: usize, x: usize) -> Row
    requires { Held copies.originals (copies_of (bans_from numbers.now bans)) copies × (3 * bans ≤ length numbers.now) × (x < copies.originals + copies.number) }
    ensures { result ≡ record { entries = tabulate (entry_by row.entries copies.originals (bans_from numbers.now bans) x) limits.words } }
{
    let count = copies.originals + copies.number;
    let mut filled = Row {
        entries: [0; Code::WORDS],
    };
    for y in 0..count {
        filled.entries[y] = u8::from(may_come(row, copies, numbers, bans, x, y));
    }
    filled
}

// The code with a word and a row for each word and each copy. Only words may begin.
pub fn fill(code: Code, copies: Copies, numbers: &[u8], bans: usize) -> Code
    requires { WellFormed limits code × (3 * bans ≤ length numbers.now) × Held code.count (copies_of (bans_from numbers.now bans)) copies }
    ensures { result ≡ (enlarged_code limits code (bans_from numbers.now bans)).code }
{
    let count = copies.originals + copies.number;
    let mut filled = code;
    for x in 0..count {
        let origin = origin_of(copies, x);
        filled.words[x] = code.words[origin];
        filled.rows[x] = fill_row(code.rows[origin], copies, numbers, bans, x);
    }
    filled.count = count;
    filled
}
