// The message of a sequence, its words' symbols joined: one pass over the sequence counts them, another writes them into a lent buffer.

#![tactic(auto)]

ghost use Rattle.std.specs.Prelude.{◌≡◌, ◌+◌, ◌≤◌, min, length};
ghost use Rattle.std.proofs.Math.Seq.{paste};
ghost use Rattle.code.specs.Definitions.Operations.{written};
ghost use Rattle.code.specs.Definitions.Sheets.{limits};
ghost use Rattle.encode_join.specs.Messages.{message_of};
ghost use Rattle.encode_join.specs.Passes.{Known};

use code::{Code, Message, Word};
use copying::copy_at;

// The length of the message, and one more than the limit for a longer one: adding stops there.
pub fn message_len(code: Code, words: &[u8]) -> usize
    requires { Known limits code words.now }
    ensures { result ≡ min (length (message_of code words.now)) (limits.message + 1) }
{
    let mut sum: usize = 0;
    for &x in words {
        let w = code.words[usize::from(x)];
        sum += w.len;
        if Message::SYMBOLS < sum {
            return Message::SYMBOLS + 1;
        }
    }
    sum
}

// Writes the symbols of a word from `at` on, and gives the place after them.
fn write_word(w: Word, message: &mut [u8], at: usize) -> usize
    requires { (w.len ≤ limits.symbols) × (at + w.len ≤ length message.old) }
    ensures { (result ≡ at + w.len) × (message.new ≡ paste message.old at w.symbols w.len) }
{
    copy_at(message, at, &w.symbols, w.len);
    at + w.len
}

// Writes the message at the start of the buffer.
pub fn write_message(code: Code, words: &[u8], message: &mut [u8])
    requires { Known limits code words.now × (length (message_of code words.now) ≤ length message.old) }
    ensures { message.new ≡ written (message_of code words.now) message.old }
{
    let mut at: usize = 0;
    for &x in words {
        at = write_word(code.words[usize::from(x)], message, at);
    }
}
