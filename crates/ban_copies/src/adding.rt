// Collecting the copies that a list of bans needs, each once and in the list's order, until a limit is passed.

ghost use Rattle.std.specs.Prelude.{◌≡◌, ◌+◌, ◌*◌, ◌≤◌, ◌<◌, length};
ghost use Rattle.code.specs.Definitions.Bans.{has_copy};
ghost use Rattle.code.specs.Definitions.Lists.{tabulate, sum};
ghost use Rattle.code.specs.Definitions.Sheets.{limits};
ghost use Rattle.ban_theory.specs.BanLists.{Known};
ghost use Rattle.ban_theory.specs.Triples.{bans_from};
ghost use Rattle.code.specs.Laws.WellFormed.{len_of, WellFormed};
ghost use Rattle.ban_copies.specs.Held.{held};
ghost use Rattle.ban_copies.specs.Adding.{Start, Added, Gathered};

use crate::Copies;
use code::Code;

// The symbols of all words together.
fn symbols_of(code: Code) -> usize
    requires { WellFormed limits code }
    ensures { result ≡ sum (tabulate (len_of code) limits.words) }
{
    let mut symbols: usize = 0;
    for word in code.words.iter() {
        symbols += word.len;
    }
    symbols
}

// n words, of `symbols` symbols together, without copies.
fn no_copies(n: usize, symbols: usize) -> Copies
    requires { n ≤ limits.words }
    ensures { Start n symbols result }
{
    let mut origins = [0u8; Code::WORDS];
    for x in 0..n {
        origins[x] = x as u8;
    }
    Copies {
        originals: n,
        number: 0,
        origins: origins,
        behind: [0; Code::WORDS],
        symbols: symbols,
    }
}

// Whether there is a copy of z after y.
pub fn has_copy(copies: &Copies, y: u8, z: u8) -> bool
    requires { copies.now.originals + copies.now.number ≤ limits.words }
    ensures { result ≡ has_copy (held copies.now) y z }
{
    let n = copies.originals;
    (0..copies.number).any(|i| copies.behind[n + i] == y && copies.origins[n + i] == z)
}

// The copies behind a ban that needs a copy of z, of `len` symbols, after y; none where they pass a limit.
fn add_copy(copies: Copies, y: u8, z: u8, len: usize) -> Option<Copies>
    requires { (copies.originals + copies.number ≤ limits.words) × (copies.symbols ≤ limits.total) × (len ≤ limits.symbols) }
    ensures { Added y z len copies result }
{
    if has_copy(&copies, y, z) {
        return Some(copies);
    }
    let at = copies.originals + copies.number;
    if at == Code::WORDS {
        return None;
    }
    if Code::SYMBOLS < copies.symbols + len {
        return None;
    }
    let mut more = copies;
    more.number = copies.number + 1;
    more.origins[at] = z;
    more.behind[at] = y;
    more.symbols = copies.symbols + len;
    Some(more)
}

// The copies of the bans whose numbers stand three by three in `numbers`; none where they pass a limit.
pub fn collect(code: Code, numbers: &[u8], bans: usize) -> Option<Copies>
    requires { WellFormed limits code × (3 * bans ≤ length numbers.now) × Known code.count (bans_from numbers.now bans) }
    ensures { Gathered code (bans_from numbers.now bans) result }
{
    let mut copies = no_copies(code.count, symbols_of(code));
    for i in 0..bans {
        let y = numbers[3 * i + 1];
        let z = numbers[3 * i + 2];
        let word = code.words[usize::from(z)];
        copies = add_copy(copies, y, z, word.len)?;
    }
    Some(copies)
}
