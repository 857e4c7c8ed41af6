// The order in which a code with copies is read: each word, then its copies; and the names of what is read.

ghost use Rattle.std.specs.Prelude.{◌≡◌, ◌++◌, map, ℕ, ◌≤◌, ◌<◌, length, take, drop, get_or};
ghost use Rattle.code.specs.Definitions.Sheets.{limits};
ghost use Rattle.renumbering.specs.Origins.{Origins, ListedTo, ByOrigin};

use code::Code;

// Puts the copies of z behind the first `at` numbers, and gives how many there are then.
fn list_copies(
    origins: &[u8],
    originals: usize,
    count: usize,
    z: usize,
    numbers: &mut [u8; Code::WORDS],
    at: usize,
) -> usize
    requires { Origins limits origins.now originals count × ListedTo limits origins.now count z originals numbers.old at }
    ensures { ListedTo limits origins.now count z count numbers.new result }
{
    let mut end = at;
    for x in originals..count {
        if origins[x] as usize == z {
            numbers[end] = x as u8;
            end += 1;
        }
    }
    end
}

// The numbers below `count` by their origins: for each of the first `originals` words the word, then its copies in ascending order.
pub fn by_origin(origins: &[u8], originals: usize, count: usize) -> [u8; Code::WORDS]
    requires { Origins limits origins.now originals count }
    ensures { ByOrigin origins.now count result }
{
    let mut numbers = [0; Code::WORDS];
    let mut at = 0;
    for z in 0..originals {
        numbers[at] = z as u8;
        at = list_copies(origins, originals, count, z, &mut numbers, at + 1);
    }
    numbers
}

// Puts the name of each of the first n words in its place.
pub fn rename(words: &mut [u8], n: usize, names: &[u8])
    requires { (n ≤ length words.old) × ((i : ℕ) → i < n → get_or words.old i 0 < length names.now) }
    ensures { words.new ≡ map (λ (x : ℕ). get_or names.now x 0) (take n words.old) ++ drop n words.old }
{
    for word in &mut words[..n] {
        *word = names[*word as usize];
    }
}
