// The verdict on a decipherable code, from the longest walk over its pairs: its delay, or that it is without bound.

#![tactic(auto)]

ghost use Rattle.std.specs.Prelude.{◌≡◌, ◌≤◌};
ghost use Rattle.code.specs.Definitions.Operations.{unordered_pairs};
ghost use Rattle.code.specs.Definitions.Sheets.{limits};
ghost use Rattle.pair_longest.specs.Extents.{Given};
ghost use Rattle.pair_storage.specs.Marks.{marks};
ghost use Rattle.decipher_delay.specs.Delays.{delay_of, verdict_of, DelayBy, Measured};

use code::{SymbolCount, Verdict};
use pair_rivals::some_rivals;

// The delay of a decipherable code, where the longest walk over its pairs reads `longest` symbols: 0 where no two words are rivals.
fn delay_of(rivals: bool, longest: usize) -> SymbolCount
    requires { longest ≤ unordered_pairs limits }
    ensures { result.0 ≡ delay_of rivals longest }
{
    if rivals {
        return SymbolCount(longest + 1);
    }
    SymbolCount(0)
}

// The delay of a decipherable code, or none: it is without bound. No pair may be marked in the list.
pub fn measure(places: &[u8], work: &mut [u64]) -> Option<SymbolCount>
    requires { Given places.now (marks places.now work.old) work.old }
    ensures { DelayBy places.now (verdict_of result) }
{
    let longest = pair_longest::longest(places, work)?;
    Some(delay_of(some_rivals(places), longest))
}

// The same as a verdict, with the list left zero.
pub fn decipherable(places: &[u8], work: &mut [u64]) -> Verdict
    requires { Given places.now (marks places.now work.old) work.old }
    ensures { Measured places.now work.old work.new result }
{
    let delay = measure(places, work);
    work.fill(0);
    match delay {
        Some(delay) => Verdict::Finite(delay),
        None => Verdict::Unbounded,
    }
}
