// The refusals of operations whose answer is too short to be told. Each operation is asked with no room in any buffer: it finds the refusals that come before 13,
// or 13 holds.

#![tactic(auto)]

ghost use Rattle.std.specs.Prelude.{◌≡◌, []};
ghost use Rattle.code.specs.Definitions.NextWords.{naming_conditions};
ghost use Rattle.code.specs.Definitions.Operations.{encoding_conditions, reading_conditions, verdict_conditions};
ghost use Rattle.code.specs.Definitions.Sheets.{limits};
ghost use Rattle.code.specs.Definitions.Splitting.{splitting_conditions};
ghost use Rattle.c_short_answers.specs.Untold.{Untold, untold_number};

use c_answers::number;
use code::{Classes, Enlarged, Refusal};

// The number of a refusal, and 13 where nothing else is refused.
fn untold<T: Drop>(answer: Result<T, Refusal>) -> u64
    ensures { result ≡ untold_number answer }
{
    match answer {
        Err(r) => number(r),
        Ok(_) => number(Refusal::ShortBuffer),
    }
}

#[tactic(auto, using(crate::specs::Untold::untold_encoding_lem))]
pub fn untold_encoding(value: Enlarged, words: &[u8]) -> u64
    ensures { Untold (encoding_conditions limits value words.now []) result }
{
    untold(encoding::encode(value, words, &mut []))
}

#[tactic(auto, using(crate::specs::Untold::untold_reading_lem))]
pub fn untold_reading(value: Enlarged, message: &[u8]) -> u64
    ensures { Untold (reading_conditions limits value message.now [] [] []) result }
{
    untold(reading::read(value, message, &mut [], &mut [], &mut []))
}

#[tactic(auto, using(crate::specs::Untold::untold_naming_lem))]
pub fn untold_naming(value: Enlarged, message: &[u8]) -> u64
    ensures { Untold (naming_conditions limits value message.now []) result }
{
    untold(next_word::next_word(value, message, &mut []))
}

#[tactic(auto, using(crate::specs::Untold::untold_verdict_lem))]
pub fn untold_verdict(value: Enlarged) -> u64
    ensures { Untold (verdict_conditions limits value [] [] [] []) result }
{
    untold(decipher::verdict(value, &mut [], &mut [], &mut [], &mut []))
}

#[tactic(auto, using(crate::specs::Untold::untold_splitting_lem))]
pub fn untold_splitting(value: Enlarged, classes: Classes, text: &[u8]) -> u64
    ensures { Untold (splitting_conditions limits value classes text.now [] [] [] [] []) result }
{
    untold(text_split::split(
        value,
        classes,
        text,
        &mut [],
        &mut [],
        &mut [],
        &mut [],
        &mut [],
    ))
}
