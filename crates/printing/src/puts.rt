// Texts put into a buffer one after another. Each function takes the place to put its text at and gives the place after it.

ghost use Rattle.std.specs.Prelude.{◌≡◌, map, ◌+◌, ◌*◌, ◌≤◌, ◌<◌, length};
ghost use Rattle.code.specs.Definitions.Lists.{join};
ghost use Rattle.csv_records.specs.Digits.{digit_of};
ghost use Rattle.printing.specs.Printed.{decimal, record_of};
ghost use Rattle.writing.specs.Puts.{Puts};
ghost use Rattle.writing.specs.Fields.{following};
ghost use Rattle.printing.specs.Prints.{Symbols};

use writing::{put, put_field};

// The digit of a symbol, as in a sheet: `char::from_digit` would write small letters.
fn digit(symbol: u8) -> u8
    requires { symbol < 16 }
    ensures { result ≡ digit_of symbol }
{
    if symbol < 10 {
        symbol + b'0'
    } else {
        symbol - 10 + b'A'
    }
}

// A message in digits.
pub fn put_digits(out: &mut [u8], at: usize, message: &[u8]) -> usize
    requires { (at + length message.now ≤ length out.old) × Symbols message.now }
    ensures { Puts at (map digit_of message.now) out.old out.new result }
{
    for i in 0..message.len() {
        out[at + i] = digit(message[i]);
    }
    at + message.len()
}

// A number in decimal.
pub fn put_decimal(out: &mut [u8], at: usize, number: u64) -> usize
    requires { at + length (decimal number) ≤ length out.old }
    ensures { Puts at (decimal number) out.old out.new result }
{
    let mut digits = [0u8; 20];
    let n = io::decimal(number, &mut digits);
    put(out, at, &digits[..n])
}

// Number i of some, after `sep` if it is not the first.
fn put_number(out: &mut [u8], at: usize, sep: &[u8], i: usize, number: u8) -> usize
    requires { at + length (following sep.now i (decimal number)) ≤ length out.old }
    ensures { Puts at (following sep.now i (decimal number)) out.old out.new result }
{
    let mut digits = [0u8; 20];
    let n = io::decimal(u64::from(number), &mut digits);
    put_field(out, at, sep, i, &digits[..n])
}

// Numbers in decimal, parted by `sep`.
pub fn put_numbers(out: &mut [u8], at: usize, sep: &[u8], numbers: &[u8]) -> usize
    requires { at + length (join sep.now (map decimal numbers.now)) ≤ length out.old }
    ensures { Puts at (join sep.now (map decimal numbers.now)) out.old out.new result }
{
    let mut next = at;
    for i in 0..numbers.len() {
        next = put_number(out, next, sep, i, numbers[i]);
    }
    next
}

// The record of a reading: four bytes a word at most, and CR LF.
pub fn put_reading(out: &mut [u8], at: usize, reading: &[u8]) -> usize
    requires { at + 4 * length reading.now + 2 ≤ length out.old }
    ensures { Puts at (record_of (map decimal reading.now)) out.old out.new result × (result ≤ at + 4 * length reading.now + 2) }
{
    let end = put_numbers(out, at, b",", reading);
    put(out, end, b"\r\n")
}
