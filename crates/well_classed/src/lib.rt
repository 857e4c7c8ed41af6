// The part of refusal 8 that is about classes: whether an accepted class sheet gives them.

#![tactic(auto)]

ghost use Rattle.std.specs.Prelude.{◌≡◌, ℕ, ◌≤◌, ◌<◌};
ghost use Rattle.code.specs.Definitions.Lists.{any};
ghost use Rattle.code.specs.Definitions.ClassSheets.{different_bytes, FromClassSheet};
ghost use Rattle.code.specs.Definitions.Sheets.{limits};
ghost use Rattle.code.specs.Definitions.Texts.{other, class_of, is_letter, signs};
ghost use Rattle.code.specs.Laws.Below.{Some};
ghost use Rattle.code.specs.Laws.Exactly.{Exactly};

use class_sheet::SIGNS;
use code::Classes;
use text_runs::is_letter;

// Whether every entry is a symbol or `OTHER`, and some byte is a letter.
fn entries_fit(classes: &[u8; Classes::BYTES]) -> bool
    ensures { Exactly result (((b : ℕ) → b < different_bytes → class_of classes.now b ≤ other) × Some (is_letter classes.now) different_bytes) }
{
    let mut small = true;
    let mut letter = false;
    // No `all` and no `any`: a loop that nothing ends early lets the compiler test many entries at once.
    for class in classes {
        small &= *class <= Classes::OTHER;
        letter |= *class < Classes::OTHER;
    }
    small && letter
}

// Whether B7 or a bracket is a letter.
fn some_sign_letter(classes: &[u8; Classes::BYTES]) -> bool
    ensures { result ≡ any (is_letter classes.now) signs }
{
    SIGNS.iter().any(|b| is_letter(classes, *b))
}

pub fn well_classed(classes: Classes) -> bool
    ensures { Exactly result (FromClassSheet limits classes) }
{
    let entries = &classes.entries;
    entries_fit(entries) && !some_sign_letter(entries)
}
