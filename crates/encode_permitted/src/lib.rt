// Whether a sequence of words is permitted: refusals 9 and 10, a pass over the sequence each.

#![tactic(auto)]

ghost use Rattle.code.specs.Definitions.Enlarged.{original_table};
ghost use Rattle.code.specs.Definitions.Operations.{HasUnknown, HasForbidden};
ghost use Rattle.code.specs.Definitions.Sheets.{limits};
ghost use Rattle.well_enlarged.specs.WellEnlarged.{WellEnlarged};
ghost use Rattle.code.specs.Laws.Exactly.{Exactly};
ghost use Rattle.encode_permitted.specs.Originals.{Original};

use code::Enlarged;
use well_enlarged::number_in;

// Refusal 9: some entry is no original word's number.
pub fn has_unknown(e: Enlarged, words: &[u8]) -> bool
    requires { WellEnlarged limits e }
    ensures { Exactly result (HasUnknown (original_table e) words.now) }
{
    words.iter().any(|&x| e.originals <= usize::from(x))
}

// Refusal 10: the first word may not begin, or some word may not come where it stands. The walk keeps the number that a word has after the one before it: what may
// follow a copy obeys the bans, so one entry of the matrix decides about a pair and a triple.
pub fn has_forbidden(e: Enlarged, words: &[u8]) -> bool
    requires { Original limits e words.now }
    ensures { Exactly result (HasForbidden (original_table e) words.now) }
{
    let Some(&first) = words.first() else {
        return false;
    };
    let mut last = usize::from(first);
    if e.code.begins[last] != 1 {
        return true;
    }
    for pair in words.windows(2) {
        let next = number_in(&e, usize::from(pair[0]), usize::from(pair[1]));
        let row = e.code.rows[next];
        if row.entries[last] != 1 {
            return true;
        }
        last = next;
    }
    false
}
