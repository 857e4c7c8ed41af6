// Rivals: words that may both begin, or both follow the last word of one permitted sequence. They are where two sequences part.

#![tactic(auto)]

ghost use Rattle.std.specs.Prelude.{◌≡◌, ◌≤◌, ◌<◌};
ghost use Rattle.code.specs.Definitions.Sheets.{limits};
ghost use Rattle.pair_places.specs.Flat.{Laid, both_behind, rivals_at, first_node};
ghost use Rattle.pair_rivals.specs.Rivals.{rival_before, some_rivals};
ghost use Rattle.pair_places.specs.Steps.{Arrives};

use code::Code;
use pair_places::{Layout, Pair, first_pair, may_come, no_pair, word_count};

// Whether words `x` and `y` may both come behind `z`, which ends a permitted sequence or is the start.
fn both_behind(places: &[u8], x: usize, y: usize, z: usize) -> bool
    requires { Laid places.now × (x < limits.words) × (y < limits.words) × (z ≤ limits.words) }
    ensures { result ≡ both_behind places.now x y z }
{
    places[Layout::ENDINGS + z] == 1 && may_come(places, x, z) && may_come(places, y, z)
}

// Whether words `x` and `y` are rivals. The start is asked first: most words may begin.
pub fn are_rivals(places: &[u8], x: usize, y: usize) -> bool
    requires { Laid places.now × (x < limits.words) × (y < limits.words) }
    ensures { result ≡ rivals_at places.now x y }
{
    both_behind(places, x, y, Code::WORDS) || (0..Code::WORDS).any(|z| both_behind(places, x, y, z))
}

// The first pair of words `x` and `y`, if they are rivals with the same first symbol.
pub fn rival_pair(places: &[u8], x: usize, y: usize) -> Pair
    requires { Laid places.now × (x < limits.words) × (y < limits.words) }
    ensures { Arrives places.now (first_node places.now x y) result }
{
    if are_rivals(places, x, y) {
        return first_pair(places, x, y);
    }
    no_pair(places)
}

// Whether word `x` has a rival before it.
fn has_rival(places: &[u8], x: usize) -> bool
    requires { Laid places.now × (x < limits.words) }
    ensures { result ≡ rival_before places.now x }
{
    (0..x).any(|y| are_rivals(places, x, y))
}

// Whether two different words are rivals, whatever their symbols.
pub fn some_rivals(places: &[u8]) -> bool
    requires { Laid places.now }
    ensures { result ≡ some_rivals places.now }
{
    (0..word_count(places)).any(|x| has_rival(places, x))
}
