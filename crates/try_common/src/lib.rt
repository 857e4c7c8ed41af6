// What the programs that try the operations share: their arguments, the bytes of a file, the fields of a line, a table and an answer written out, and what a trial leaves
// in the buffers that it lends.

#![tactic(auto)]

pub mod buffers;
pub mod fields;
pub mod results;
pub mod tables;

ghost use Rattle.std.specs.Prelude.{IfSome};
ghost use Rattle.io.specs.Counts.{IsPrefixLen};

use program::failures::tell_failure;
use std::env::FillError;
use std::io;
use std::rt::Env;

// The bytes of a file, as many as there is room for. Of one that cannot be opened or read the error is told, and it counts as empty.
pub fn read_file(rt: &HostRuntime, path: &[u8], bytes: &mut [u8]) -> usize
    ensures { IsPrefixLen result bytes.new }
{
    streams::read_file(rt, path, bytes)
        .inspect_err(|error| tell_failure(rt.stderr(), path, *error))
        .unwrap_or(0)
}

// The bytes that there are for an argument.
pub const ARGUMENT: usize = 4096;

// The bytes of argument i, at the start of `word`; none where the program has no such argument. One that is longer counts as empty.
pub fn argument(rt: &impl Env, i: usize, word: &mut [u8]) -> Option<usize>
    ensures { IfSome result (λ n. IsPrefixLen n word.new) }
{
    match rt.arg(i, word) {
        Ok(n) => Some(n),
        Err(FillError::TooLong) => Some(0),
        Err(FillError::NotPresent) => None,
    }
}

// Tries each argument in turn, up to the first failure.
pub fn each_argument<F: FnMut(&[u8]) -> io::Result<()>>(
    rt: &impl Env,
    mut try_one: F,
) -> io::Result<()>
    requires { F.IsAlwaysCallable try_one }
{
    for i in 1..usize::MAX {
        let mut word = [0u8; ARGUMENT];
        let Some(n) = argument(rt, i, &mut word) else {
            break;
        };
        try_one(&word[..n])?;
    }
    Ok(())
}
