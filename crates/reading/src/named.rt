// The readings of a message in the numbers of original words. A code with copies is read with its words in the order of their origins, so that the first
// readings by number are the first by origin; then each word read gets the number of its origin.

ghost use Rattle.std.specs.Prelude.{◌^◌, ◌≤◌, ◌<◌, length};
ghost use Rattle.code.specs.Definitions.Enlarged.{original_table};
ghost use Rattle.code.specs.Definitions.Sheets.{limits};
ghost use Rattle.well_enlarged.specs.WellEnlarged.{WellEnlarged};
ghost use Rattle.read_core.specs.Core.{FindsAll};

use code::{Enlarged, Readings};
use read_core::{find_readings, first_count, second_count};
use renumbering::origins::{by_origin, rename};
use renumbering::{renumber, reorder_entries};

// The readings in a code with copies.
fn find_by_origin(
    e: Enlarged,
    message: &[u8],
    first: &mut [u8],
    second: &mut [u8],
    work: &mut [u64],
) -> Option<Readings>
    requires { WellEnlarged limits e × (length message.now < 2 ^ 32) × (length message.now ≤ length first.old)
        × (length message.now ≤ length second.old) × (length message.now < length work.old) }
    ensures { FindsAll (original_table e) message.now first.old second.old work.old
        first.new second.new work.new result }
{
    let code = e.code;
    let origins = e.origins;
    let old = by_origin(&origins, e.originals, code.count);
    let ordered = renumber(code, old);
    let names = reorder_entries(origins, old, code.count);
    let r = find_readings(ordered, message, first, second, work);
    let n = first_count(r);
    rename(first, n, &names);
    let k = second_count(r);
    rename(second, k, &names);
    r
}

// The readings in a code with copies or without: where there are none, each number is its own origin.
pub fn find_named(
    e: Enlarged,
    message: &[u8],
    first: &mut [u8],
    second: &mut [u8],
    work: &mut [u64],
) -> Option<Readings>
    requires { WellEnlarged limits e × (length message.now < 2 ^ 32) × (length message.now ≤ length first.old)
        × (length message.now ≤ length second.old) × (length message.now < length work.old) }
    ensures { FindsAll (original_table e) message.now first.old second.old work.old
        first.new second.new work.new result }
{
    let code = e.code;
    if e.originals == code.count {
        return find_readings(code, message, first, second, work);
    }
    find_by_origin(e, message, first, second, work)
}
