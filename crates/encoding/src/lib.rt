// Encoding: the symbols of a sequence's words, joined in a lent buffer. Refusals 9, 10 and 11 are a pass over the sequence each (`encode_permitted`, `encode_join`);
// a last pass writes.

#![tactic(auto)]

ghost use Rattle.code.specs.Definitions.Operations.{Encodes};
ghost use Rattle.code.specs.Definitions.Sheets.{limits};

use code::{Enlarged, Message, Refusal, SymbolCount};
use encode_join::{message_len, write_message};
use encode_permitted::{has_forbidden, has_unknown};

// Encodes a sequence of word numbers: its message stands at the start of the buffer. Refused with 8, 9, 10, 11 or 13, it leaves the buffer as it was.
pub fn encode(e: Enlarged, words: &[u8], message: &mut [u8]) -> Result<SymbolCount, Refusal>
    ensures { Encodes limits e words.now message.old message.new result }
{
    if !well_enlarged::well_enlarged(e) {
        return Err(Refusal::NotFromSheet);
    }
    if has_unknown(e, words) {
        return Err(Refusal::UnknownWord);
    }
    if has_forbidden(e, words) {
        return Err(Refusal::ForbiddenPair);
    }
    let n = message_len(e.code, words);
    if Message::SYMBOLS < n {
        return Err(Refusal::MessageLength);
    }
    if message.len() < n {
        return Err(Refusal::ShortBuffer);
    }
    write_message(e.code, words, message);
    Ok(SymbolCount(n))
}
