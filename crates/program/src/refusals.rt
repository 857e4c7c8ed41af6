// A refusal in words, on standard error: the input, its number and what it means, and where the cure is. Standard output has the number alone, as document 01 says.

use crate::failures::say;
use code::Refusal;
use std::io::{Eprint, Stderr};

// Tells that an input is refused; `what` names the program and the input.
pub fn tell_refusal(errors: Stderr, what: &[u8], refusal: Refusal) {
    say(errors, what);
    let _ = eprintln!(errors;
        " is refused {}: {refusal} (docs/GUIDE.md, section 9)",
        refusal.number()
    );
}

// Tells it of an answer that is a refusal.
pub fn tell_answer<T: Drop>(errors: Stderr, what: &[u8], answer: Result<T, Refusal>) {
    if let Err(refusal) = answer {
        tell_refusal(errors, what, refusal);
    }
}
