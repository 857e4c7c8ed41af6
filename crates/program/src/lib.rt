// What the programs share: a word of help, the files that their arguments name, standard input and standard output, and refusals told in words. Where a file
// or a stream fails, a line on standard error tells it: `what`, which names the program and what it could not do, then the file and the system's reason.

#![tactic(auto)]

pub mod failures;
pub mod refusals;

ghost use Rattle.program.specs.Arguments.{Named};
ghost use Rattle.streams.specs.Inputs.{Holds};

use failures::{argument_error, say, tell_failure};
use std::env::FillError;
use std::io;
use std::io::Print;
use std::rt::Env;
use streams::{read_file, read_input};

const HELP: [u8; 6] = *b"--help";

// The bytes of the longest path, with the 0 that the system puts behind it.
const PATH: usize = 4096;

// How many arguments the program has; its own name is one of them.
pub fn argument_count(rt: &HostRuntime) -> usize {
    let mut word = [0u8; 1];
    for i in 0..usize::MAX {
        if let Err(FillError::NotPresent) = rt.arg(i, &mut word) {
            return i;
        }
    }
    usize::MAX
}

// Whether the first of so many arguments asks for help; the program's own name is one of them.
fn asks_help(rt: &HostRuntime, arguments: usize) -> bool {
    let mut word = [0u8; HELP.len()];
    1 < arguments && rt.arg(1, &mut word).is_ok_and(|n| word[..n] == HELP[..])
}

// Whether a program that takes so many arguments at the most goes on. Help that is asked for is written on standard output, and `what` tells that it could not
// be; that there are too many arguments is told by its usage on standard error.
pub fn goes_on(
    rt: &HostRuntime,
    arguments: usize,
    most: usize,
    what: &[u8],
    help: &[u8],
    usage: &[u8],
) -> bool {
    if asks_help(rt, arguments) {
        write_standard(rt, what, help);
        return false;
    }
    if most < arguments {
        say(rt.stderr(), usage);
        return false;
    }
    true
}

// The bytes of the file that argument i names. Where the program has no such argument, there are 0 bytes. A name that is longer than a path may be is not
// cut.
pub fn read_named(
    rt: &HostRuntime,
    i: usize,
    arguments: usize,
    what: &[u8],
    bytes: &mut [u8],
) -> io::Result<usize>
    ensures { Named i arguments bytes.new result }
{
    if arguments <= i {
        return Ok(0);
    }
    let mut path = [0u8; PATH];
    let errors = rt.stderr();
    let n = rt
        .arg(i, &mut path)
        .map_err(argument_error)
        .inspect_err(|error| tell_failure(errors, what, *error))?;
    let path = &path[..n];
    read_file(rt, path, bytes).inspect_err(|error| {
        say(errors, what);
        say(errors, b": ");
        tell_failure(errors, path, *error);
    })
}

// The bytes of standard input.
pub fn read_standard(rt: &HostRuntime, what: &[u8], bytes: &mut [u8]) -> io::Result<usize>
    ensures { Holds bytes.new result }
{
    read_input(&mut rt.stdin(), bytes).inspect_err(|error| tell_failure(rt.stderr(), what, *error))
}

// Writes bytes on standard output.
pub fn write_standard(rt: &HostRuntime, what: &[u8], bytes: &[u8]) {
    if let Err(error) = rt.write_all(bytes) {
        tell_failure(rt.stderr(), what, error);
    }
}
