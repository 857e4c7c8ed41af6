// One member of a group, by one symbol: the pairs where its slots lead are met. A pair that turns goes on with two words, any other with a step of both
// places.

ghost use Rattle.std.specs.Prelude.{◌≡◌, ◌+◌, ◌*◌, ◌<◌};
ghost use Rattle.code.specs.Definitions.Sheets.{limits};
ghost use Rattle.pair_places.specs.Flat.{word_count};
ghost use Rattle.pair_places.specs.Steps.{pair_cell};
ghost use Rattle.pair_slots.specs.Ensured.{Straight, Turned};
ghost use Rattle.pair_storage.specs.Entries.{node_at, entries_in};
ghost use Rattle.pair_storage.specs.Marks.{marks};
ghost use Rattle.pair_groups.specs.Ensured.{Expanding, Progressed};

use crate::Group;
use pair_places::Pair;
use pair_slots::meeting::{leads, least_in_order, meet, meet_words};
use pair_slots::{Progress, Step, turning, width};
use pair_storage::pair_at;
use std::ops::ControlFlow;

// A member of a group, which is entry `index` of the queue, and a symbol by which it goes on.
#[derive(Clone, Copy)]
pub struct Member {
    pub group: Group,
    pub symbol: usize,
    pub index: usize,
}

// Meets the pairs where the slots of a member lead that does not turn.
fn expand_slots(
    places: &[u8],
    work: &mut [u64],
    member: Member,
    pair: Pair,
    tail: usize,
) -> Progress
    requires { Expanding places.now (marks places.now work.old) work.old tail member.group.start member.group.end member.symbol member.index 0
        × (node_at (entries_in places.now work.old) member.index ≡ pair_cell places.now pair)
        × Straight places.now pair }
    ensures { Progressed places.now (marks places.now work.new) (entries_in places.now work.new)
        member.group.start member.group.end member.symbol (member.index + 1) 0 result }
{
    let step = Step {
        start: member.group.start,
        symbol: member.symbol,
    };
    let mut tail = tail;
    for slot in 0..width(places, pair, member.symbol) {
        let next = pair_places::successor(places, pair.low, pair.high, slot);
        tail = meet(places, work, step, next, tail)?;
    }
    ControlFlow::Continue(tail)
}

// Meets the pairs of word `x` and another, from a member that turns behind `y`.
fn expand_word(
    places: &[u8],
    work: &mut [u64],
    member: Member,
    y: usize,
    x: usize,
    tail: usize,
) -> Progress
    requires { Expanding places.now (marks places.now work.old) work.old tail member.group.start member.group.end member.symbol member.index (x * limits.words)
        × Turned places.now (node_at (entries_in places.now work.old) member.index) y
        × (x < word_count places.now) }
    ensures { Progressed places.now (marks places.now work.new) (entries_in places.now work.new)
        member.group.start member.group.end member.symbol member.index ((x + 1) * limits.words) result
        × Turned places.now (node_at (entries_in places.now work.new) member.index) y }
{
    if !leads(places, member.symbol, y, x) {
        return ControlFlow::Continue(tail);
    }
    let step = Step {
        start: member.group.start,
        symbol: member.symbol,
    };
    let mut tail = tail;
    for z in least_in_order(places, x)..pair_places::word_count(places) {
        tail = meet_words(places, work, step, y, x, z, tail)?;
    }
    ControlFlow::Continue(tail)
}

// Meets the pairs of words that come next from a member that turns behind `y`.
fn expand_words(places: &[u8], work: &mut [u64], member: Member, y: usize, tail: usize) -> Progress
    requires { Expanding places.now (marks places.now work.old) work.old tail member.group.start member.group.end member.symbol member.index 0
        × Turned places.now (node_at (entries_in places.now work.old) member.index) y }
    ensures { Progressed places.now (marks places.now work.new) (entries_in places.now work.new)
        member.group.start member.group.end member.symbol (member.index + 1) 0 result }
{
    let mut tail = tail;
    for x in 0..pair_places::word_count(places) {
        tail = expand_word(places, work, member, y, x, tail)?;
    }
    ControlFlow::Continue(tail)
}

// Meets all pairs that come next from a member.
pub fn expand_member(places: &[u8], work: &mut [u64], member: Member, tail: usize) -> Progress
    requires { Expanding places.now (marks places.now work.old) work.old tail member.group.start member.group.end member.symbol member.index 0 }
    ensures { Progressed places.now (marks places.now work.new) (entries_in places.now work.new)
        member.group.start member.group.end member.symbol (member.index + 1) 0 result }
{
    let pair = pair_at(work, member.index);
    match turning(places, pair) {
        Some(y) => expand_words(places, work, member, y, tail),
        None => expand_slots(places, work, member, pair, tail),
    }
}
