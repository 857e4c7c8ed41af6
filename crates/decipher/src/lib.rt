// The verdict on a code with copies or without: ambiguous, decipherable with its delay, or decipherable without bound. The shortest message of a walk over the
// pairs of places to two ends is looked for; where there is none, the longest walk tells the delay.

#![tactic(auto)]

ghost use Rattle.std.specs.Prelude.{◌≡◌, ◌≤◌, length};
ghost use Rattle.code.specs.Definitions.Enlarged.{original_table};
ghost use Rattle.code.specs.Definitions.Operations.{zeroed, verdict_work, Judges};
ghost use Rattle.code.specs.Definitions.Sheets.{limits};
ghost use Rattle.well_enlarged.specs.WellEnlarged.{WellEnlarged};
ghost use Rattle.code.specs.Laws.Exactly.{Exactly};
ghost use Rattle.decipher.specs.Buffers.{Short, Room};
ghost use Rattle.decipher.specs.Decided.{Decided};
ghost use Rattle.decipher.specs.Lent.{Searchable};

use code::{Enlarged, Pairs, Refusal, Verdict};
use well_enlarged::well_enlarged;

// Whether a buffer is too short for a verdict, by the lengths of the four.
#[tactic(auto, using(crate::specs::Buffers::short_ways))]
fn is_short(message: usize, first: usize, second: usize, work: usize) -> bool
    ensures { Exactly result (Short message first second work) }
{
    if message < Pairs::ROOM {
        return true;
    }
    if first < Pairs::ROOM {
        return true;
    }
    if second < Pairs::ROOM {
        return true;
    }
    work < Pairs::MARKS
}

// All marks are clear at the start of a verdict: an array of them is laid over the working buffer, where the searches read and set them. What is lent behind it is
// cleared too. (A `fill` of the whole would do the same: the array is the one that docs/DECISIONS.md, D44, promises.)
fn clear_marks(work: &mut [u64])
    requires { verdict_work limits ≤ length work.old }
    ensures { work.new ≡ zeroed work.old }
{
    let marks = [0u64; Pairs::MARKS];
    work[Pairs::MARKS..].fill(0);
    pair_storage::lay(&marks, &mut work[..Pairs::MARKS]);
}

// The verdict on a code whose places are laid out, by searches over its words and copies alike. The list is clear, and is left so.
fn search(
    e: Enlarged,
    places: &[u8],
    message: &mut [u8],
    first: &mut [u8],
    second: &mut [u8],
    work: &mut [u64],
) -> Verdict
    requires { Searchable e places.now (length message.old) (length first.old) (length second.old) work.old }
    ensures { Decided (original_table e) message.old first.old second.old work.old
        message.new first.new second.new work.new result }
{
    match pair_shortest::shortest(places, work, message) {
        Some(n) => decipher_ambiguous::ambiguous(e, &message[..n], first, second, work),
        None => {
            work.fill(0);
            decipher_delay::decipherable(places, work)
        }
    }
}

// The verdict on a code that a sheet and a list give, in buffers that are long enough. Of the working buffer the searches have as much as the code's places need.
fn decide(
    e: Enlarged,
    message: &mut [u8],
    first: &mut [u8],
    second: &mut [u8],
    work: &mut [u64],
) -> Verdict
    requires { WellEnlarged limits e × Room (length message.old) (length first.old) (length second.old) (length work.old) }
    ensures { Decided (original_table e) message.old first.old second.old work.old
        message.new first.new second.new work.new result }
{
    clear_marks(work);
    let places = pair_endings::lay_out(e.code);
    let room = pair_storage::room(&places);
    search(e, &places, message, first, second, &mut work[..room])
}

// Gives the verdict on a code, or the lowest refusal that holds, 8 or 13. For an ambiguous code the message and its first two readings, in the
// numbers of original words, stand at the start of their buffers; otherwise these are as they were. After a verdict the working buffer is zero.
pub fn verdict(
    e: Enlarged,
    message: &mut [u8],
    first: &mut [u8],
    second: &mut [u8],
    work: &mut [u64],
) -> Result<Verdict, Refusal>
    ensures { Judges limits e message.old first.old second.old work.old
        message.new first.new second.new work.new result }
{
    if !well_enlarged(e) {
        return Err(Refusal::NotFromSheet);
    }
    if is_short(message.len(), first.len(), second.len(), work.len()) {
        return Err(Refusal::ShortBuffer);
    }
    Ok(decide(e, message, first, second, work))
}
