// What failed, in words on standard error. Where that fails too, there is nothing left to tell it on.

use std::env::FillError;
use std::io::{Cursor, Error, Print, Stderr, Write};

// The system's numbers for an argument that is missing, and for one that is too long.
const EINVAL: i32 = 22;

const ENAMETOOLONG: i32 = 36;

// No `From`, since both types are std's.
pub fn argument_error(e: FillError) -> Error {
    match e {
        FillError::NotPresent => Error::from_raw_os_error(EINVAL),
        FillError::TooLong => Error::from_raw_os_error(ENAMETOOLONG),
    }
}

pub fn say(errors: Stderr, words: &[u8]) {
    let _ = Print::write_all(&errors, words);
}

// Tells in a line what failed and the system's reason. `Display` puts the number of the error behind it, which is left out.
pub fn tell_failure(errors: Stderr, what: &[u8], error: Error) {
    let mut reason = Cursor::new([0u8; 256]);
    let _ = write!(reason, "{error}");
    let words = reason.into_inner();
    let end = words.iter().position(|b| *b == 0).unwrap_or(words.len());
    say(errors, what);
    say(errors, b": ");
    say(errors, without_number(&words[..end]));
    say(errors, b"\n");
}

// What stands before ` (os error 2)` and the like.
fn without_number(reason: &[u8]) -> &[u8] {
    let Ok(text) = str::from_utf8(reason) else {
        return reason;
    };
    match text.split_once(" (os error ") {
        Some((words, _)) => words.as_bytes(),
        None => reason,
    }
}
