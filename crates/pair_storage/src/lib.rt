// The marks of pairs, and the entries of a queue or a stack of pairs, in one list. The walk reaches both here alone. Number k of the list has the mark of cell k
// and entry k. A mark is found by the pair's two places. An entry has the two places as fields of their own, and another number above them; each field is taken out
// by a shift and a mask.

#![tactic(auto)]

ghost use Rattle.std.specs.Prelude.{◌≡◌, ◌≤◌, ◌<◌, length, get_or};
ghost use Rattle.code.specs.Definitions.Operations.{written};
ghost use Rattle.pair_places.specs.Flat.{Laid, place_count, cell_count};
ghost use Rattle.pair_places.specs.Steps.{pair_cell};
ghost use Rattle.pair_storage.specs.Fields.{place_room, above_room, link_room, mark_room, link_of, both_of, above_in, link_in, mark_in, Carries};
ghost use Rattle.pair_storage.specs.Entries.{above_at, links};
ghost use Rattle.pair_storage.specs.Marks.{marks};
ghost use Rattle.pair_storage.specs.Rooms.{room_of};
ghost use Rattle.pair_storage.specs.Stores.{Marked, mark_of, with_link, MarkStored, Stored};

use pair_places::{Pair, place_count};

// The widths of the fields, in bits: the mark in the lowest, then the higher place, the lower place, and the other number of the entry in those that are left. There
// is room for 384 places, and for a number for each of their 73,920 pairs.
#[derive(Clone, Copy)]
struct Field {}

impl Field {
    const MARK: usize = 23;

    const PLACE: usize = 9;

    const PAIR: usize = Field::PLACE + Field::PLACE;

    const MARK_MASK: u64 = (1 << Field::MARK) - 1;

    const PLACE_MASK: u64 = (1 << Field::PLACE) - 1;
}

#[derive(Clone, Copy)]
struct Queue {}

impl Queue {
    // The entries of a queue of the pairs of two places: the source, three pairs, and one to spare.
    const LEAST: usize = 5;
}

// The cell of a pair.
fn cell(places: &[u8], pair: Pair) -> usize
    requires { Laid places.now × (pair.low < place_count places.now) × (pair.high < place_count places.now) }
    ensures { (result ≡ pair_cell places.now pair) × (result < cell_count places.now) }
{
    pair.low * place_count(places) + pair.high
}

// How many cells there are, a mark for each.
fn cell_count(places: &[u8]) -> usize
    requires { Laid places.now }
    ensures { result ≡ cell_count places.now }
{
    let count = place_count(places);
    count * count
}

// How long the list of a search over the pairs is.
#[tactic(auto, unfolding(crate::specs::Rooms::room_of))]
pub fn room(places: &[u8]) -> usize
    requires { Laid places.now }
    ensures { result ≡ room_of places.now }
{
    cell_count(places).max(Queue::LEAST)
}

// Lays marks over the first numbers of the list; there is no link beside them.
pub fn lay(marks: &[u64], work: &mut [u64])
    requires { length marks.now ≤ length work.old }
    ensures { work.new ≡ written marks.now work.old }
{
    work[..marks.len()].copy_from_slice(marks);
}

// The mark of a stored number.
fn mark_in(both: u64) -> usize
    ensures { (result ≡ mark_in both) × (result < mark_room) }
{
    (both & Field::MARK_MASK) as usize
}

// The link of a stored number.
#[tactic(auto, unfolding(crate::specs::Fields::link_in))]
fn link_in(both: u64) -> u64
    ensures { (result ≡ link_in both) × (result < link_room) }
{
    both >> Field::MARK
}

// A mark and a link as one number.
fn both(mark: usize, link: u64) -> u64
    requires { (mark < mark_room) × (link < link_room) }
    ensures { result ≡ both_of mark link }
{
    (link << Field::MARK) + mark as u64
}

// The two places of a stored number.
fn pair_in(both: u64) -> Pair
    ensures { Carries both result }
{
    let link = link_in(both);
    Pair {
        low: ((link >> Field::PLACE) & Field::PLACE_MASK) as usize,
        high: (link & Field::PLACE_MASK) as usize,
    }
}

// The other number of a link.
#[tactic(auto, unfolding(crate::specs::Fields::above_in))]
fn above_in(link: u64) -> usize
    requires { link < link_room }
    ensures { (result ≡ above_in link) × (result < above_room) }
{
    (link >> Field::PAIR) as usize
}

// The link of a pair, and of another number.
fn link(above: usize, pair: Pair) -> u64
    requires { (above < above_room) × (pair.low < place_room) × (pair.high < place_room) }
    ensures { (result ≡ link_of above pair.low pair.high) × (result < link_room) }
{
    ((above << Field::PAIR) + (pair.low << Field::PLACE) + pair.high) as u64
}

// The mark of a pair.
#[tactic(auto, using(crate::specs::Marks::marks_within, crate::specs::Stores::mark_read))]
pub fn mark(places: &[u8], work: &[u64], pair: Pair) -> usize
    requires { Marked places.now (marks places.now work.now) pair }
    ensures { (result ≡ mark_of places.now (marks places.now work.now) pair) × (result < mark_room) }
{
    mark_in(work[cell(places, pair)])
}

// Sets the mark of a pair, and keeps the link beside it.
#[tactic(auto, using(crate::specs::Marks::marks_within))]
pub fn set_mark(places: &[u8], work: &mut [u64], pair: Pair, mark: usize)
    requires { Marked places.now (marks places.now work.old) pair × (mark < mark_room) }
    ensures { MarkStored places.now work.old pair mark work.new }
{
    let at = cell(places, pair);
    let link = link_in(work[at]);
    work[at] = both(mark, link);
}

// The pair of entry `i`.
pub fn pair_at(work: &[u64], i: usize) -> Pair
    requires { i < length work.now }
    ensures { Carries (get_or work.now i 0) result }
{
    pair_in(work[i])
}

// The other number of entry `i`.
pub fn above_at(work: &[u64], i: usize) -> usize
    requires { i < length work.now }
    ensures { (result ≡ above_at (links work.now) i) × (result < above_room) }
{
    above_in(link_in(work[i]))
}

// Stores entry `i`, a pair and another number above it, and keeps the mark beside it.
pub fn set_entry(work: &mut [u64], i: usize, above: usize, pair: Pair)
    requires { (i < length work.old) × (above < above_room) × (pair.low < place_room) × (pair.high < place_room) }
    ensures { work.new ≡ with_link work.old i above pair }
{
    let mark = mark_in(work[i]);
    work[i] = both(mark, link(above, pair));
}

// Stores entry `i` and the mark of its pair.
pub fn store(places: &[u8], work: &mut [u64], i: usize, above: usize, pair: Pair, mark: usize)
    requires { Marked places.now (marks places.now work.old) pair × (i < length work.old) × (above < above_room) × (mark < mark_room) }
    ensures { Stored places.now work.old i above pair mark work.new }
{
    set_mark(places, work, pair, mark);
    set_entry(work, i, above, pair);
}
