// Enlarging a code by a list of bans that look two words back: copies of words are collected, and words, origins and matrix filled in by them.

#![tactic(auto)]

pub mod adding;
pub mod filling;

ghost use Rattle.std.specs.Prelude.{◌≡◌, ◌*◌, ◌≤◌, length};
ghost use Rattle.code.specs.Definitions.Bans.{copies_of};
ghost use Rattle.code.specs.Definitions.Enlarged.{blank_enlarged, enlarged_code, enlargement};
ghost use Rattle.code.specs.Definitions.Sheets.{limits};
ghost use Rattle.ban_theory.specs.BanLists.{Known};
ghost use Rattle.ban_theory.specs.Triples.{bans_from};
ghost use Rattle.code.specs.Laws.WellFormed.{WellFormed};
ghost use Rattle.ban_copies.specs.Adding.{Collected};

use adding::collect;
use code::blanks::blank_code;
use code::{Code, Enlarged, Enlargement, Refusal};
use filling::fill;

// Copies as they are collected, behind the words of a code. What stands past the last copy is zero.
#[derive(Clone, Copy)]
pub struct Copies {
    // the words of the code
    pub originals: usize,
    // the copies
    pub number: usize,
    // for a word its own number, for a copy that of its word
    pub origins: [u8; Code::WORDS],
    // for a copy the word after which it stands, else 0
    pub behind: [u8; Code::WORDS],
    // the symbols of the words and the copies
    pub symbols: usize,
}

// The table of a refused list: no words, and all zero.
pub fn blank_enlarged() -> Enlarged
    ensures { result ≡ blank_enlarged limits }
{
    let code = blank_code();
    Enlarged {
        code: code,
        originals: 0,
        origins: [0; Code::WORDS],
        behind: [0; Code::WORDS],
    }
}

// The code with the copies of its bans.
fn with_copies(code: Code, copies: Copies, numbers: &[u8], bans: usize) -> Enlarged
    requires { WellFormed limits code × (3 * bans ≤ length numbers.now) × Collected code (copies_of (bans_from numbers.now bans)) copies }
    ensures { result ≡ enlarged_code limits code (bans_from numbers.now bans) }
{
    let filled = fill(code, copies, numbers, bans);
    let origins = copies.origins;
    let behind = copies.behind;
    Enlarged {
        code: filled,
        originals: code.count,
        origins: origins,
        behind: behind,
    }
}

// The code enlarged by `bans` bans, whose numbers stand three by three in `numbers`; refused 17 where the copies pass the limits.
pub fn enlarge_by(code: Code, numbers: &[u8], bans: usize) -> Enlargement
    requires { WellFormed limits code × (3 * bans ≤ length numbers.now) × Known code.count (bans_from numbers.now bans) }
    ensures { result ≡ enlargement limits code (bans_from numbers.now bans) }
{
    match collect(code, numbers, bans) {
        Some(copies) => {
            let enlarged = with_copies(code, copies, numbers, bans);
            Enlargement {
                answer: Ok(()),
                enlarged: enlarged,
            }
        }
        None => {
            let blank = blank_enlarged();
            Enlargement {
                answer: Err(Refusal::BanLimit),
                enlarged: blank,
            }
        }
    }
}
