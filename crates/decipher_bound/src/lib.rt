// The delay of a code, by the searches over its pairs, or that it has none.

#![tactic(auto)]

ghost use Rattle.std.specs.Prelude.{◌≤◌, length};
ghost use Rattle.pair_places.specs.Flat.{Laid};
ghost use Rattle.pair_places.specs.Roots.{Numbered};
ghost use Rattle.pair_storage.specs.Rooms.{room_of};
ghost use Rattle.decipher_bound.specs.Bounds.{BoundBy};

use code::SymbolCount;

// The delay of a code whose places are laid out, or none: the code is ambiguous, or decipherable without bound. The list may hold anything before and after.
pub fn find_delay(places: &[u8], work: &mut [u64]) -> Option<SymbolCount>
    requires { Laid places.now × Numbered places.now × (room_of places.now ≤ length work.old) }
    ensures { BoundBy places.now result }
{
    work.fill(0);
    if pair_shortest::reaches_ends(places, work) {
        return None;
    }
    work.fill(0);
    decipher_delay::measure(places, work)
}
