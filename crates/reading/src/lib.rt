// Reading a message by a code with copies or without: whether no, one or several permitted sequences of original words have it, and the first two of them.

#![tactic(auto)]

pub mod named;

ghost use Rattle.code.specs.Definitions.Sheets.{limits};
ghost use Rattle.code.specs.Definitions.Operations.{ReadsMessage};
ghost use Rattle.code.specs.Laws.Exactly.{Exactly};
ghost use Rattle.reading.specs.Public.{Short};

use code::{Enlarged, Message, Readings, Refusal};
use named::find_named;
use read_symbols::has_high;
use well_enlarged::well_enlarged;

// Whether a buffer is too short for a message of `n` symbols, by the lengths of the three.
fn is_short(n: usize, first: usize, second: usize, work: usize) -> bool
    ensures { Exactly result (Short n first second work) }
{
    if first < n {
        return true;
    }
    if second < n {
        return true;
    }
    work <= n
}

// Reads a message: the only reading or the first two, in the numbers of original words, or the lowest refusal that holds.
pub fn read(
    e: Enlarged,
    message: &[u8],
    first: &mut [u8],
    second: &mut [u8],
    work: &mut [u64],
) -> Result<Readings, Refusal>
    ensures { ReadsMessage limits e message.now first.old second.old work.old
        first.new second.new work.new result }
{
    if !well_enlarged(e) {
        return Err(Refusal::NotFromSheet);
    }
    if Message::SYMBOLS < message.len() {
        return Err(Refusal::MessageLength);
    }
    if has_high(message) {
        return Err(Refusal::MessageSymbol);
    }
    if is_short(message.len(), first.len(), second.len(), work.len()) {
        return Err(Refusal::ShortBuffer);
    }
    let found = find_named(e, message, first, second, work);
    found.ok_or(Refusal::NoReading)
}
