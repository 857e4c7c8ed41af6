// What the operations for C and Rust give into a lent buffer: a table as its image, classes as their entries.

#![tactic(auto)]

ghost use Rattle.std.specs.Prelude.{◌≡◌, min, ◌≤◌, length, if◌then◌else◌, Ok};
ghost use Rattle.c_answers.specs.Answers.{short_number};
ghost use Rattle.code.specs.Definitions.Answers.{refusal_number};
ghost use Rattle.code.specs.Definitions.ClassSheets.{different_bytes};
ghost use Rattle.c_image.specs.Image.{image_length, image_of, Packable};
ghost use Rattle.c_results.specs.Given.{Answered, classes_in};

use c_answers::number;
use c_image::{Image, pack};
use code::{Classes, Enlarged, Refusal};
use copying::copy_at;

// The number of a refusal, or 13 where that is lower and the buffer is too short.
fn lower(refusal: Refusal, short: bool) -> u64
    ensures { result ≡ (if short then min (refusal_number refusal) short_number else refusal_number refusal) }
{
    let own = number(refusal);
    if short {
        own.min(number(Refusal::ShortBuffer))
    } else {
        own
    }
}

// Answers a sheet or a ban list that gives the value `e`: 0, and its image stands at the start of `table`; or the refusal's number.
pub fn put_table(answer: Result<(), Refusal>, e: Enlarged, table: &mut [u8]) -> u64
    requires { answer ≡ Ok tt → Packable e }
    ensures { Answered answer image_length (image_of e) table.old table.new result }
{
    let short = table.len() < Image::LENGTH;
    match answer {
        Ok(()) => {
            if short {
                return number(Refusal::ShortBuffer);
            }
            pack(e, table);
            0
        }
        Err(r) => lower(r, short),
    }
}

// Answers a class sheet that gives these classes: 0, and they stand at the start of `out`; or the refusal's number.
pub fn put_classes(answer: Result<(), Refusal>, classes: Classes, out: &mut [u8]) -> u64
    ensures { Answered answer different_bytes classes.entries out.old out.new result }
{
    let short = out.len() < Classes::BYTES;
    match answer {
        Ok(()) => {
            if short {
                return number(Refusal::ShortBuffer);
            }
            let entries = classes.entries;
            copy_at(out, 0, &entries, Classes::BYTES);
            0
        }
        Err(r) => lower(r, short),
    }
}

// The classes that stand at the start of the bytes.
pub fn classes_in(bytes: &[u8]) -> Classes
    requires { different_bytes ≤ length bytes.now }
    ensures { result ≡ classes_in bytes.now }
{
    let mut entries = [0u8; Classes::BYTES];
    entries.copy_from_slice(&bytes[..Classes::BYTES]);
    Classes { entries }
}
