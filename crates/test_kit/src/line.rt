// A list of at most 16 slots that is kept plainly, by moving entries in an array, and the links that the list has to have for it.
ghost use Rattle.std.specs.Prelude.{◌≡◌, ◌+◌, ◌-◌, ◌<◌, ◌≤◌, ◌^◌, min, length, IfSome, MatchOption};
ghost use Rattle.head.specs.Bounds.{none_mark};
ghost use Rattle.test_kit.specs.Orders.{Fits, Within};

use crate::links::Links;
use head::{Head, Place, Slot};
use std::array;

// The marks are numbers of their own, not those of `Head`: the list under test writes those, so a wrong one there shows.
const NONE: u32 = 4294967295;

const UNUSED: u32 = 4294967294;

// A slot in use, and a mark for what it holds.
#[derive(Clone, Copy, Default)]
pub struct Entry {
    pub slot: Slot,
    pub mark: u64,
}

// The entries, front first, of which the first `live` count; the pile of free slots, of which the first `depth` count and the last of these is taken first; and the
// first slot never used. Arrays with their counts: an order is Copy, and an ArrayVec is not.
#[derive(Clone, Copy)]
pub struct Order {
    pub entries: [Entry; 16],
    pub live: u32,
    pub pile: [Slot; 16],
    pub depth: u32,
    pub top: u32,
}

impl Order {
    // No slot is in use.
    pub fn new() -> Order
        ensures { (result.live ≡ 0) × (result.depth ≡ 0) × (result.top ≡ 0) }
    {
        Order {
            entries: [Entry::default(); 16],
            live: 0,
            pile: [Slot::default(); 16],
            depth: 0,
            top: 0,
        }
    }

    // The entries that count.
    fn used(&self) -> &[Entry]
        ensures { length result.now ≡ min self.now.live 16 }
    {
        let n = (self.live as usize).min(16);
        &self.entries[..n]
    }

    // The free slots that count.
    fn free(&self) -> &[Slot]
        ensures { length result.now ≡ min self.now.depth 16 }
    {
        let n = (self.depth as usize).min(16);
        &self.pile[..n]
    }

    // The slot at a place, none past the end.
    pub fn slot_at(&self, place: usize) -> Slot
        ensures { self.now.live ≤ place → result.0 ≡ none_mark }
    {
        self.used()
            .get(place)
            .map_or(Slot(NONE), |entry| entry.slot)
    }

    // The place of a slot, none where it is not in use.
    fn place_of(&self, slot: Slot) -> Option<usize>
        ensures { IfSome result (λ place. place < 16) }
    {
        self.used().iter().position(|entry| entry.slot == slot)
    }

    // The slot that the next entry takes: the last of the pile, or the first never used.
    fn take_slot(&mut self) -> Option<Slot>
        ensures entries { (self.new.entries ≡ self.old.entries) × (self.new.live ≡ self.old.live) }
        ensures taken { MatchOption result ((self.new ≡ self.old) × (self.old.depth ≡ 0) × (16 ≤ self.old.top)) (λ _. self.old.depth + self.new.top ≡ self.new.depth + self.old.top + 1) }
        ensures within { (self.new.depth ≤ self.old.depth) × (self.old.top ≤ 16 → self.new.top ≤ 16) }
    {
        if 0 < self.depth {
            self.depth -= 1;
            let last = self.pile.get(self.depth as usize);
            return Some(last.copied().unwrap_or_default());
        }
        if 16 <= self.top {
            return None;
        }
        let slot = Slot(self.top);
        self.top += 1;
        Some(slot)
    }

    // An entry with this mark comes to the front.
    pub fn push(&mut self, mark: u64)
        ensures within { Within self.old → Within self.new }
        ensures fits { Fits self.old → Fits self.new }
        ensures pushed { Fits self.old → self.old.live < 16 → self.new.live ≡ self.old.live + 1 }
    {
        if 16 <= self.live {
            return;
        }
        if let Some(slot) = self.take_slot() {
            self.entries.rotate_right(1);
            self.entries[0] = Entry { slot, mark };
            self.live += 1;
        }
    }

    // The entry at a place leaves, and its slot comes on the pile.
    pub fn remove(&mut self, place: usize)
        ensures within { Within self.old → Within self.new }
        ensures fits { Fits self.old → Fits self.new }
        ensures removed { Fits self.old → place < self.old.live → self.new.live + 1 ≡ self.old.live }
        ensures stays { self.old.live ≤ place → self.new ≡ self.old }
    {
        if place < self.used().len() && self.depth < 16 {
            self.pile[self.depth as usize] = self.entries[place].slot;
            self.entries.copy_within(place + 1.., place);
            self.live -= 1;
            self.depth += 1;
        }
    }

    // The entry at a place comes to the front.
    pub fn raise(&mut self, place: usize)
        ensures within { Within self.old → Within self.new }
        ensures fits { Fits self.old → Fits self.new }
        ensures live { self.new.live ≡ self.old.live }
    {
        if place < self.used().len() {
            self.entries[..place + 1].rotate_right(1);
        }
    }

    // So many leave by the back.
    pub fn evict(&mut self, count: u64)
        ensures within { Within self.old → Within self.new }
        ensures fits { Fits self.old → Fits self.new }
        ensures left { Fits self.old → self.new.live ≡ self.old.live - count }
    {
        for _ in 0..count {
            let last = (self.live as usize).saturating_sub(1);
            self.remove(last);
        }
    }

    // Every entry leaves, and no slot counts as used.
    pub fn clear(&mut self)
        ensures { (self.new.live ≡ 0) × (self.new.depth ≡ 0) × (self.new.top ≡ 0) }
    {
        self.live = 0;
        self.depth = 0;
        self.top = 0;
    }

    // The entry at place i comes to slot i, and the slots from there to a new top are the pile, ascending. A top past 32 bits is the largest of 32.
    pub fn compact(&mut self, top: u64)
        ensures within { Within self.old → top ≤ 16 → Within self.new }
        ensures fits { self.old.live ≤ top → top ≤ 16 → Fits self.new }
        ensures live { self.new.live ≡ self.old.live }
        ensures top { top < 2 ^ 32 → self.new.top ≡ top }
    {
        let Order { entries, live, .. } = *self;
        let top = top.min(u64::from(u32::MAX)) as u32;
        *self = Order {
            entries: array::from_fn(|i| Entry {
                slot: Slot(i as u32),
                mark: entries[i].mark,
            }),
            live,
            pile: array::from_fn(|i| Slot(live.wrapping_add(i as u32))),
            depth: top.saturating_sub(live),
            top,
        };
    }

    // How many entries there are.
    pub fn live(&self) -> u32
        ensures { result ≡ self.now.live }
    {
        self.live
    }

    // The next link of a slot: the slot of the entry behind it, or the mark where it is not in use.
    fn after(&self, slot: Slot) -> u32 {
        match self.place_of(slot) {
            Some(place) => self.slot_at(place + 1).0,
            None => UNUSED,
        }
    }

    // The back link of a slot: the slot of the entry ahead of it, or its place on the pile where it waits there.
    fn ahead(&self, slot: Slot) -> u32 {
        if let Some(place) = self.place_of(slot) {
            return self.slot_at(place.wrapping_sub(1)).0;
        }
        match self.free().iter().position(|free| *free == slot) {
            Some(place) => place as u32,
            None => NONE,
        }
    }

    // What a place of the stack holds: the slot of the pile, none past it.
    fn waiting(&self, place: usize) -> u32 {
        self.free().get(place).map_or(NONE, |slot| slot.0)
    }

    // The list for this order: a head with its counts and ends, the links and the stack.
    pub fn links(&self, head: Head) -> Links {
        Links {
            head: Head {
                live: self.live,
                front: self.slot_at(0),
                back: self.slot_at((self.live as usize).wrapping_sub(1)),
                top: Slot(self.top),
                depth: Place(self.depth),
                ..head
            },
            next: array::from_fn(|i| self.after(Slot(i as u32))),
            prev: array::from_fn(|i| self.ahead(Slot(i as u32))),
            stack: array::from_fn(|i| self.waiting(i)),
        }
    }
}
