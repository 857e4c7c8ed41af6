// Bytes written into a buffer one after another.

#![tactic(auto)]

ghost use Rattle.std.specs.Prelude.{◌≡◌, ◌+◌, ◌≤◌, length};
ghost use Rattle.writing.specs.Puts.{Puts};
ghost use Rattle.writing.specs.Fields.{following};

use copying::copy_at;

// Puts bytes into a buffer from a place on, and gives the place after them.
pub fn put(out: &mut [u8], at: usize, bytes: &[u8]) -> usize
    requires { at + length bytes.now ≤ length out.old }
    ensures { Puts at bytes.now out.old out.new result }
{
    copy_at(out, at, bytes, bytes.len());
    at + bytes.len()
}

// Puts field i of some, after `sep` if it is not the first. Gives the place after it.
pub fn put_field(out: &mut [u8], at: usize, sep: &[u8], i: usize, field: &[u8]) -> usize
    requires { at + length (following sep.now i field.now) ≤ length out.old }
    ensures { Puts at (following sep.now i field.now) out.old out.new result }
{
    if i == 0 {
        return put(out, at, field);
    }
    let next = put(out, at, sep);
    put(out, next, field)
}
