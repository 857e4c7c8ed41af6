// Copying a stretch of bytes from one slice into another.

#![tactic(auto)]

ghost use Rattle.std.specs.Prelude.{◌≡◌, ◌+◌, ◌≤◌, length};
ghost use Rattle.std.proofs.Math.Seq.{paste};

// Copies the first `count` entries of `from` to `to`, from index `at` on.
pub fn copy_at(to: &mut [u8], at: usize, from: &[u8], count: usize)
    requires { (at + count ≤ length to.old) × (count ≤ length from.now) }
    ensures { to.new ≡ paste to.old at from.now count }
{
    // Not std's `copy_from_slice`: the compiler would call `memmove` for it, which the archive for C otherwise needs nobody to bring.
    for i in 0..count {
        to[at + i] = from[i];
    }
}
