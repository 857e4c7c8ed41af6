// Enlarging a code by a ban list of any bytes: the lowest refusal that holds, 1, 8, 16 or 17, or the code with the copies that its bans need.

#![tactic(auto)]

ghost use Rattle.std.specs.Prelude.{◌≡◌};
ghost use Rattle.code.specs.Definitions.Operations.{WithoutCopies, Enlarges};
ghost use Rattle.code.specs.Definitions.Sheets.{limits};
ghost use Rattle.code.specs.Laws.Exactly.{Exactly};
ghost use Rattle.ban_enlarge.specs.Ways.{refused_list};

use ban_copies::{blank_enlarged, enlarge_by};
use ban_list::read_bans;
use code::{Enlarged, Enlargement, Refusal, Sheet};
use well_enlarged::well_enlarged;

// Whether an accepted sheet gives the table, and it has no copies.
fn without_copies(value: Enlarged) -> bool
    ensures { Exactly result (WithoutCopies limits value) }
{
    well_enlarged(value) && value.originals == value.code.count
}

// A refused list gives the blank table.
fn refuse(r: Refusal) -> Enlargement
    ensures { result ≡ refused_list limits r }
{
    let blank = blank_enlarged();
    Enlargement {
        answer: Err(r),
        enlarged: blank,
    }
}

// Enlarges a table by a list of bans that look two words back. The answer is the lowest refusal that holds, of 1, 8, 16 and 17, with the blank table; or that the list is
// accepted, with the enlarged code. Without a ban that is the table itself.
pub fn enlarge(value: Enlarged, list: &[u8]) -> Enlargement
    ensures { Enlarges limits value list.now result }
{
    if Sheet::BYTES < list.len() {
        return refuse(Refusal::SheetLength);
    }
    if !without_copies(value) {
        return refuse(Refusal::NotFromSheet);
    }
    let code = value.code;
    let mut numbers = [0u8; Sheet::BYTES];
    match read_bans(list, code.count, &mut numbers) {
        None => refuse(Refusal::BanRecord),
        Some(k) => enlarge_by(code, &numbers, k),
    }
}
