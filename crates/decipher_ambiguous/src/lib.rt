// The verdict on an ambiguous code, from a message that has several readings.

#![tactic(auto)]

ghost use Rattle.std.specs.Prelude.{◌≤◌, ◌<◌, length};
ghost use Rattle.code.specs.Definitions.Enlarged.{original_table};
ghost use Rattle.code.specs.Definitions.Operations.{unordered_pairs};
ghost use Rattle.code.specs.Definitions.Readings.{TwoReadings};
ghost use Rattle.code.specs.Definitions.Sheets.{limits};
ghost use Rattle.well_enlarged.specs.WellEnlarged.{WellEnlarged};
ghost use Rattle.decipher_ambiguous.specs.Twice.{ReadTwice};

use code::{Enlarged, SymbolCount, Verdict, WordCount};
use read_core::{first_count, second_count};
use reading::named::find_named;

// The verdict `ambiguous`, from a message that has several readings; the first two then stand in their buffers.
pub fn ambiguous(
    e: Enlarged,
    message: &[u8],
    first: &mut [u8],
    second: &mut [u8],
    work: &mut [u64],
) -> Verdict
    requires { WellEnlarged limits e × TwoReadings (original_table e) message.now × (length message.now ≤ unordered_pairs limits)
        × (unordered_pairs limits ≤ length first.old) × (unordered_pairs limits ≤ length second.old)
        × (length message.now < length work.old) }
    ensures { ReadTwice (original_table e) message.now first.old second.old work.old
        first.new second.new work.new result }
{
    let n = message.len();
    let found = find_named(e, message, first, second, work);
    let a = first_count(found);
    let b = second_count(found);
    Verdict::Ambiguous(SymbolCount(n), WordCount(a), WordCount(b))
}
