// Works the follow matrix of the twelve Turkish types out from the two rules, and prints it as the constant table of the crate `turkish`.

#![tactic(auto)]

mod rules;

ghost use Rattle.std.specs.Prelude.{◌+◌, ◌≤◌, ◌<◌, length};
ghost use Rattle.writing.specs.Puts.{Puts, Starts};
ghost use Rattle.turkish.specs.Types.{types};
ghost use Rattle.turkish_matrix.specs.Printed.{end_of, line_of, lines, printed};

use printing::puts::put_numbers;
use program::{argument_count, goes_on, write_standard};
use rules::row_of;
use turkish::Types;
use writing::put;

#[derive(Clone, Copy)]
pub struct Output {}

impl Output {
    // Bytes for the printed table.
    pub const BYTES: usize = 1024;
}

// What ends the line of row x: the name of its type, as a comment.
fn put_end(out: &mut [u8], at: usize, x: usize) -> usize
    requires { (x < length types) × (at + length (end_of x) ≤ length out.old) }
    ensures { Puts at (end_of x) out.old out.new result }
{
    let name = put(out, at, b"]), // ");
    let letter = [b'A' + x as u8, b'\n'];
    put(out, name, &letter)
}

// The line of row x.
fn put_line(out: &mut [u8], at: usize, x: usize, row: &[u8]) -> usize
    requires { (x < length types) × (at + length (line_of x row.now) ≤ length out.old) }
    ensures { Puts at (line_of x row.now) out.old out.new result }
{
    let first = put(out, at, b"    TypeRow([");
    let end = put_numbers(out, first, b", ", row);
    put_end(out, end, x)
}

// The lines of all rows.
fn put_lines(out: &mut [u8], at: usize) -> usize
    requires { at + length lines ≤ length out.old }
    ensures { Puts at lines out.old out.new result }
{
    let mut next = at;
    for x in 0..Types::COUNT {
        next = put_line(out, next, x, &row_of(x));
    }
    next
}

// The whole table at the start of `out`; gives its length.
fn print_table(out: &mut [u8]) -> usize
    requires { length printed ≤ length out.old }
    ensures { Starts printed out.old out.new result }
{
    let first = put(out, 0, b"pub const ROWS: [TypeRow; Types::COUNT] = [\n");
    let end = put_lines(out, first);
    put(out, end, b"];\n")
}

fn main(rt: HostRuntime) {
    let goes = goes_on(
        &rt,
        argument_count(&rt),
        1,
        b"turkish_matrix: cannot write standard output",
        b"usage: turkish_matrix\nPrints which of the twelve Turkish syllable types may follow which, worked out from two rules, as a constant of the source.\n",
        b"turkish_matrix takes no argument; usage: turkish_matrix\n",
    );
    if !goes {
        return;
    }
    let mut out = [0u8; Output::BYTES];
    let length = print_table(&mut out);
    write_standard(
        &rt,
        b"turkish_matrix: cannot write standard output",
        &out[..length],
    );
}
