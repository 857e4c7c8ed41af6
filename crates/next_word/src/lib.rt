// The next word of a message, from as few symbols as the delay of the code: the one word that begins a permitted sequence with these first symbols.

#![tactic(auto)]

mod telling;

ghost use Rattle.std.specs.Prelude.{◌≤◌, ◌<◌, length, take};
ghost use Rattle.code.specs.Definitions.Delays.{Delay};
ghost use Rattle.code.specs.Definitions.Enlarged.{original_table};
ghost use Rattle.code.specs.Definitions.NextWords.{NamesNext};
ghost use Rattle.code.specs.Definitions.Operations.{HasHigh, verdict_work};
ghost use Rattle.code.specs.Definitions.Sheets.{limits};
ghost use Rattle.well_enlarged.specs.WellEnlarged.{WellEnlarged};
ghost use Rattle.code.specs.Laws.Exactly.{Exactly};
ghost use Rattle.next_word.specs.Told.{Told};

use code::{Enlarged, Message, Pairs, Refusal};
use read_symbols::has_high;
use telling::tell;
use well_enlarged::well_enlarged;

// Whether some of the first `n` symbols of a message is above 15.
fn high_soon(n: usize, message: &[u8]) -> bool
    ensures { Exactly result (HasHigh (take n message.now)) }
{
    if n < message.len() {
        return has_high(&message[..n]);
    }
    has_high(message)
}

// The next word, by a delay of `n` symbols, or refusal 12 or 14.
fn name(e: Enlarged, n: usize, message: &[u8], work: &mut [u64]) -> Result<usize, Refusal>
    requires { WellEnlarged limits e × Delay (original_table e) n × (n < length work.old) }
    ensures { Told e message.now result }
{
    if high_soon(n, message) {
        return Err(Refusal::MessageSymbol);
    }
    if message.len() == 0 {
        return Err(Refusal::NoReading);
    }
    tell(e.code, n, message, work).ok_or(Refusal::NoReading)
}

// The next word, or refusal 21, 12 or 14, in a working buffer that is long enough.
fn foretell(e: Enlarged, message: &[u8], work: &mut [u64]) -> Result<usize, Refusal>
    requires { WellEnlarged limits e × (verdict_work limits ≤ length work.old) }
    ensures { Told e message.now result }
{
    let places = pair_endings::lay_out(e.code);
    let room = pair_storage::room(&places);
    let found = decipher_bound::find_delay(&places, &mut work[..room]);
    let delay = found.ok_or(Refusal::NoFiniteDelay)?;
    name(e, delay.0, message, work)
}

// Names the next word of a message, or gives the first refusal that holds of 8, 11, 13, 21, 12 and 14, in this order. The working buffer is left zero unless 8, 11 or
// 13 is returned.
pub fn next_word(e: Enlarged, message: &[u8], work: &mut [u64]) -> Result<usize, Refusal>
    ensures { NamesNext limits e message.now work.old work.new result }
{
    if !well_enlarged(e) {
        return Err(Refusal::NotFromSheet);
    }
    if Message::SYMBOLS < message.len() {
        return Err(Refusal::MessageLength);
    }
    if work.len() < Pairs::MARKS {
        return Err(Refusal::ShortBuffer);
    }
    let r = foretell(e, message, work);
    work.fill(0);
    r
}
