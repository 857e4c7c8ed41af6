// One group of the queue: where it ends, and what comes next from its members, symbol after symbol, member after member.

#![tactic(auto)]

mod members;

ghost use Rattle.std.specs.Prelude.{◌+◌, ◌≤◌, ◌<◌, length};
ghost use Rattle.pair_places.specs.Flat.{Laid, place_count, pair_count};
ghost use Rattle.pair_places.specs.Opens.{open_graph};
ghost use Rattle.pair_places.specs.Roots.{Numbered};
ghost use Rattle.pair_places.specs.Steps.{pair_cell};
ghost use Rattle.pair_storage.specs.Entries.{entries_in};
ghost use Rattle.pair_storage.specs.Marks.{marks};
ghost use Rattle.pair_groups.specs.Ensured.{Known, Stands, Progressed};
ghost use Rattle.pair_groups.specs.Queue.{Ascending, IsGroup};
ghost use Rattle.pair_groups.specs.Symbols.{NotLed, NoneLed};

use code::Word;
use members::{Member, expand_member};
use pair_places::Pair;
use pair_slots::{Progress, inner, key, turning};
use pair_storage::pair_at;
use std::ops::ControlFlow;

// A group of the queue: entries `start` to `end` - 1.
#[derive(Clone, Copy)]
pub struct Group {
    pub start: usize,
    pub end: usize,
}

// Deals with all members of a group for one symbol.
fn expand_symbol(
    places: &[u8],
    work: &mut [u64],
    group: Group,
    symbol: usize,
    tail: usize,
) -> Progress
    requires { Laid places.now
        × Numbered places.now
        × (pair_count places.now + 2 ≤ length work.old)
        × (symbol < 16)
        × Stands places.now (marks places.now work.old) (entries_in places.now work.old) tail group.start group.end symbol group.start 0 }
    ensures { Progressed places.now (marks places.now work.new) (entries_in places.now work.new)
        group.start group.end (symbol + 1) group.start 0 result }
{
    let mut tail = tail;
    for index in group.start..group.end {
        let member = Member {
            group,
            symbol,
            index,
        };
        tail = expand_member(places, work, member, tail)?;
    }
    ControlFlow::Continue(tail)
}

// The lesser of `least` and the symbol, not below `symbol`, that leads a pair on. Any symbol may lead the source on.
fn sooner(places: &[u8], pair: Pair, symbol: usize, least: usize) -> usize
    requires { Laid places.now × (pair.high < place_count places.now) × (symbol ≤ least) }
    ensures { NotLed places.now (pair_cell places.now pair) symbol result × (result ≤ least) }
{
    if turning(places, pair).is_some() {
        return symbol;
    }
    let place = inner(places, pair);
    let next = places[place + 1] as usize;
    if next < symbol {
        return least;
    }
    next.min(least)
}

// The least symbol, not below `symbol`, that may lead a member of a group on. 16 if there is none, the end of the symbols, from which the least is taken down:
// with an Option for the least so far each step would have another case.
fn next_symbol(places: &[u8], work: &[u64], group: Group, symbol: usize) -> usize
    requires { Laid places.now
        × Known places.now (entries_in places.now work.now) group.end
        × (group.end ≤ length work.now)
        × (symbol ≤ 16) }
    ensures { NoneLed places.now (entries_in places.now work.now) group.start group.end symbol result × (result ≤ 16) }
{
    let mut least = Word::ALPHABET as usize;
    for member in group.start..group.end {
        least = sooner(places, pair_at(work, member), symbol, least);
    }
    least
}

// Deals with a group, symbol after symbol.
pub fn expand_group(places: &[u8], work: &mut [u64], group: Group, tail: usize) -> Progress
    requires { Laid places.now
        × Numbered places.now
        × (pair_count places.now + 2 ≤ length work.old)
        × Stands places.now (marks places.now work.old) (entries_in places.now work.old) tail group.start group.end 0 group.start 0 }
    ensures { Progressed places.now (marks places.now work.new) (entries_in places.now work.new)
        group.start group.end 16 group.start 0 result }
{
    let mut symbol = next_symbol(places, work, group, 0);
    let mut tail = tail;
    // A while: the members say which symbol is next.
    while symbol < Word::ALPHABET as usize {
        tail = expand_symbol(places, work, group, symbol, tail)?;
        symbol = next_symbol(places, work, group, symbol + 1);
    }
    ControlFlow::Continue(tail)
}

// The end of the group that starts at an entry.
pub fn group_end(places: &[u8], work: &[u64], start: usize, tail: usize) -> usize
    requires { Laid places.now
        × Known places.now (entries_in places.now work.now) tail
        × Ascending (open_graph places.now) (entries_in places.now work.now) tail
        × (start < tail)
        × (tail ≤ length work.now) }
    ensures { IsGroup (open_graph places.now) (entries_in places.now work.now) tail start result }
{
    let first = key(places, work, start);
    for end in start + 1..tail {
        if key(places, work, end) != first {
            return end;
        }
    }
    tail
}
