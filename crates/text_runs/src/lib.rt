// The words of a text: which bytes are letters, and the run of letters that a text begins with.

#![tactic(auto)]

ghost use Rattle.std.specs.Prelude.{◌≡◌, ◌≤◌, length};
ghost use Rattle.code.specs.Definitions.Texts.{class_of, is_letter};
ghost use Rattle.text_runs.specs.Runs.{LaysRun};

use code::Classes;

fn class_of(classes: &[u8; Classes::BYTES], byte: u8) -> u8
    ensures { result ≡ class_of classes.now byte }
{
    classes[byte as usize]
}

pub fn is_letter(classes: &[u8; Classes::BYTES], byte: u8) -> bool
    ensures { result ≡ is_letter classes.now byte }
{
    class_of(classes, byte) < Classes::OTHER
}

// Lays the symbols of the letters that a text begins with at the start of `message`, and gives how many there are.
#[tactic(auto, using(crate::specs::Runs::laying_steps))]
pub fn lay_run(classes: &[u8; Classes::BYTES], text: &[u8], message: &mut [u8]) -> usize
    requires { length text.now ≤ length message.old }
    ensures { LaysRun classes.now text.now message.old message.new result }
{
    for i in 0..text.len() {
        let class = class_of(classes, text[i]);
        if Classes::OTHER <= class {
            return i;
        }
        message[i] = class;
    }
    text.len()
}
