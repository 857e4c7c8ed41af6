// Codes with copies: a table without copies as one of them, and the test for refusal 8, whether a sheet and a ban list give a value. The plain code, the numbers
// of its words and copies, each copy and each entry of the matrix are tested, each by itself.

#![tactic(auto)]

ghost use Rattle.std.specs.Prelude.{[], ◌≡◌, ℕ, ◌≤◌, ◌<◌, length, get_or};
ghost use Rattle.code.specs.Definitions.Bans.{origin, number_after};
ghost use Rattle.code.specs.Definitions.Enlarged.{copies_in, plain_of};
ghost use Rattle.code.specs.Definitions.Operations.{FromLists};
ghost use Rattle.code.specs.Definitions.Sheets.{limits};
ghost use Rattle.code.specs.Laws.Below.{Some};
ghost use Rattle.code.specs.Laws.Exactly.{Exactly};
ghost use Rattle.code.specs.Laws.WellFormed.{WellFormed};
ghost use Rattle.well_enlarged.specs.WellEnlarged.{NumberFits, Numbered, barred, CopyFits, WellEnlarged};
ghost use Rattle.well_enlarged.specs.Tests.{copies_at, NumbersFit, AtOwnPlace, CopiesFit, EntryFits, RowFits, MatrixFits};

use code::{Code, Enlarged, Row};
use std::array;

// The origin of number x where n words have no copies.
fn own(x: usize, n: usize) -> u8
    requires { x < limits.words }
    ensures { result ≡ origin n [] x }
{
    if x < n { x as u8 } else { 0 }
}

// A table without copies, as a code with copies.
pub fn plain(code: Code) -> Enlarged
    ensures { result ≡ plain_of limits code }
{
    let origins = array::from_fn(|x| own(x, code.count));
    Enlarged {
        code,
        originals: code.count,
        origins,
        behind: [0; Code::WORDS],
    }
}

// Number x of n words and, up to `count`, copies: one of the word `of`, and after the word `behind`.
fn number_fits(x: usize, n: usize, count: usize, of: usize, behind: usize) -> bool
    requires { n ≤ count }
    ensures { Exactly result (NumberFits n count x of behind) }
{
    if x < n {
        (of == x) & (behind == 0)
    } else if x < count {
        (of < n) & (behind < n) & (behind != of)
    } else {
        (of == 0) & (behind == 0)
    }
}

// All numbers, also those past the count.
fn numbers_fit(e: &Enlarged) -> bool
    requires { e.now.originals ≤ e.now.code.count }
    ensures { Exactly result (NumbersFit limits e.now) }
{
    (0..Code::WORDS).all(|x| number_fits(
        x,
        e.originals,
        e.code.count,
        usize::from(e.origins[x]),
        usize::from(e.behind[x]),
    ))
}

// The numbers of the words and of the copies behind them.
fn numbered(e: &Enlarged) -> bool
    requires { e.now.code.count ≤ limits.words }
    ensures { Exactly result (Numbered limits e.now) }
{
    1 <= e.originals && e.originals <= e.code.count && numbers_fit(e)
}

// The number of the word x after the word y: that of the copy of x after y, if there is one.
pub fn number_after(
    origins: &[u8],
    behind: &[u8],
    n: usize,
    count: usize,
    y: usize,
    x: usize,
) -> usize
    requires { (n ≤ count) × (count ≤ length origins.now) × (count ≤ length behind.now) }
    ensures { result ≡ number_after n (copies_at origins.now behind.now n count) y x }
{
    (n..count)
        .find(|&i| usize::from(behind[i]) == y && usize::from(origins[i]) == x)
        .unwrap_or(x)
}

// The same in a code with copies.
pub fn number_in(e: &Enlarged, y: usize, x: usize) -> usize
    requires { (e.now.originals ≤ e.now.code.count) × (e.now.code.count ≤ limits.words) }
    ensures { result ≡ number_after e.now.originals (copies_in e.now) y x }
{
    number_after(&e.origins, &e.behind, e.originals, e.code.count, y, x)
}

// Whether there is a 1 in column y of a row.
fn is_one(row: &Row, y: usize) -> bool
    requires { y < limits.words }
    ensures { Exactly result (get_or row.now.entries y 0 ≡ 1) }
{
    row.entries[y] == 1
}

// Whether the word w may not come behind the copy x.
fn is_barred(e: &Enlarged, x: usize, w: usize) -> bool
    requires { Numbered limits e.now × (x < e.now.code.count) × (w < e.now.originals) }
    ensures { result ≡ barred e.now x w }
{
    let next = number_in(e, usize::from(e.origins[x]), w);
    !is_one(&e.code.rows[next], x)
}

// Whether some word may not come behind the copy x.
fn has_ban(e: &Enlarged, x: usize) -> bool
    requires { Numbered limits e.now × (x < e.now.code.count) }
    ensures { Exactly result (Some (barred e.now x) e.now.originals) }
{
    (0..e.originals).any(|w| is_barred(e, x, w))
}

// The copy x: no other is of its word after the same word, it has its word's symbols, cannot begin, and comes from some ban.
fn copy_fits(e: &Enlarged, x: usize) -> bool
    requires { Numbered limits e.now × (e.now.originals ≤ x) × (x < e.now.code.count) }
    ensures { Exactly result (AtOwnPlace e.now x × CopyFits e.now x) }
{
    let of = usize::from(e.origins[x]);
    let after = usize::from(e.behind[x]);
    (number_in(e, after, of) == x)
        & (e.code.words[x] == e.code.words[of])
        & (e.code.begins[x] == 0)
        & has_ban(e, x)
}

fn copies_fit(e: &Enlarged) -> bool
    requires { Numbered limits e.now }
    ensures { Exactly result (CopiesFit e.now) }
{
    (e.originals..e.code.count).all(|x| copy_fits(e, x))
}

// Entry y of row x.
fn entry_fits(e: &Enlarged, x: usize, y: usize) -> bool
    requires { Numbered limits e.now × (x < e.now.code.count) × (y < e.now.code.count) }
    ensures { Exactly result (EntryFits e.now x y) }
{
    let row = &e.code.rows[x];
    if !is_one(row, y) {
        return true;
    }
    let after = usize::from(e.origins[y]);
    let of = usize::from(e.origins[x]);
    is_one(row, after) & (number_in(e, after, of) == x)
}

// All entries of row x.
fn row_fits(e: &Enlarged, x: usize) -> bool
    requires { Numbered limits e.now × (x < e.now.code.count) }
    ensures { Exactly result (RowFits e.now x) }
{
    (0..e.code.count).all(|y| entry_fits(e, x, y))
}

fn matrix_fits(e: &Enlarged) -> bool
    requires { Numbered limits e.now }
    ensures { Exactly result (MatrixFits e.now) }
{
    (0..e.code.count).all(|x| row_fits(e, x))
}

// The copies and the matrix; where there are no copies, nothing is to be asked of them.
fn copied_well(e: &Enlarged) -> bool
    requires { WellFormed limits e.now.code × Numbered limits e.now }
    ensures { Exactly result (WellEnlarged limits e.now) }
{
    if e.originals == e.code.count {
        return true;
    }
    copies_fit(e) & matrix_fits(e)
}

// Whether a sheet and a ban list give this value: where not, refusal 8 holds.
pub fn well_enlarged(e: Enlarged) -> bool
    ensures { Exactly result (FromLists limits e) }
{
    well_formed::well_formed(e.code) && numbered(&e) && copied_well(&e)
}
