// An input taken whole, from a stream or from a file. A read that fails is not the end of the input, and one that was interrupted is tried again.

#![tactic(auto)]

ghost use Rattle.streams.specs.Inputs.{Holds};

use std::io::{Error, ErrorKind, Read};
use std::rt::Files;
use std::{fs, io};

// Interrupted reads that are tried again: nothing promises that interruptions end.
const INTERRUPTIONS: usize = 1000000;

// Reads until the input ends or the buffer is full. Gives how many bytes at the start of the buffer are the whole input, or fill it.
pub fn read_input<R: Read>(reader: &mut R, bytes: &mut [u8]) -> io::Result<usize>
    ensures { Holds bytes.new result }
{
    let mut done: usize = 0;
    let mut interruptions: usize = 0;
    // A while: a read says how many bytes it brings.
    while done < bytes.len() {
        match reader.read(&mut bytes[done..]) {
            Ok(0) => return Ok(done),
            Ok(n) => done += n,
            Err(e) if e.kind() == ErrorKind::Interrupted && interruptions < INTERRUPTIONS => {
                interruptions += 1;
            }
            Err(e) => return Err(e),
        }
    }
    Ok(done)
}

// The same for the file at this path, which has to be UTF-8, as all paths of `std::fs`.
pub fn read_file<R: Files>(rt: &R, path: &[u8], bytes: &mut [u8]) -> io::Result<usize>
    ensures { Holds bytes.new result }
{
    let path = str::from_utf8(path).map_err(|_| Error::from(ErrorKind::InvalidFilename))?;
    let mut file = fs::open(rt, path)?;
    read_input(&mut file, bytes)
}
