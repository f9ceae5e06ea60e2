// A state: a head with its eight lists. A damage names a number by its place on one sheet: the head's nine first, then list by list.
use crate::samples::Sample;
use head::{Head, Place, Slot};
use state::{FieldsView, LinksView, View};
use std::array;

// The paper's marks and bounds. `Head` names them too; the plain check stands on the paper alone.
pub const NONE: u32 = 4294967295;

pub const UNUSED: u32 = 4294967294;

pub const MOST_CAPACITY: u64 = 9223372036854775807;

pub const MOST_SLOTS: u32 = 4096;

// How many places a list has; the cells have twice as many.
pub const PLACES: usize = 16;

#[derive(Clone, Copy, PartialEq, Eq)]
pub enum List {
    Codes,
    Stamps,
    Values,
    Weights,
    Next,
    Prev,
    Stack,
    Cells,
}

impl List {
    pub const ALL: [List; 8] = [
        List::Codes,
        List::Stamps,
        List::Values,
        List::Weights,
        List::Next,
        List::Prev,
        List::Stack,
        List::Cells,
    ];

    // How many of its places so many slots need.
    pub fn needed(self, slots: u32) -> usize {
        match self {
            List::Cells => 2 * slots as usize,
            _ => slots as usize,
        }
    }
}

#[derive(Clone, Copy)]
pub struct State {
    pub head: Head,
    pub codes: [u64; PLACES],
    pub stamps: [u32; PLACES],
    pub values: [u64; PLACES],
    pub weights: [u64; PLACES],
    pub next: [u32; PLACES],
    pub prev: [u32; PLACES],
    pub stack: [u32; PLACES],
    pub cells: [u32; 2 * PLACES],
    // The one list that is not lent whole, and how many of its places are.
    pub cut: Option<(List, usize)>,
}

// What the places past the needed ones hold.
#[derive(Clone, Copy)]
pub enum Tail {
    // What would be sound there.
    Blank,
    Sevens,
}

// Where a number of the sheet stands.
enum Spot {
    Head(usize),
    In(List, usize),
}

impl Spot {
    fn of(place: usize) -> Spot {
        if place < 9 {
            return Spot::Head(place);
        }
        let i = place - 9;
        if i < 7 * PLACES {
            Spot::In(List::ALL[i / PLACES], i % PLACES)
        } else {
            Spot::In(List::Cells, i - 7 * PLACES)
        }
    }
}

// The low 32 bits.
fn low(v: u64) -> u32 {
    (v % 4294967296) as u32
}

// A head's numbers, in the order of its fields.
fn numbers(head: Head) -> [u64; 9] {
    [
        u64::from(head.kind),
        head.capacity,
        u64::from(head.slots),
        u64::from(head.live),
        head.weight,
        u64::from(head.front.0),
        u64::from(head.back.0),
        u64::from(head.top.0),
        u64::from(head.depth.0),
    ]
}

// The head of such numbers, each cut to its field's width.
fn head_of(numbers: [u64; 9]) -> Head {
    let [kind, capacity, slots, live, weight, front, back, top, depth] = numbers;
    Head {
        kind: low(kind),
        capacity,
        slots: low(slots),
        live: low(live),
        weight,
        front: Slot(low(front)),
        back: Slot(low(back)),
        top: Slot(low(top)),
        depth: Place(low(depth)),
    }
}

// The number at a place, 0 past the end.
pub fn at<T: Copy + Default>(list: &[T], i: usize) -> T {
    list.get(i).copied().unwrap_or_default()
}

// Stores at a place, nothing past the end.
fn put<T: Copy>(list: &mut [T], i: usize, v: T) {
    if let Some(number) = list.get_mut(i) {
        *number = v;
    }
}

// The first so many places of a list, or all of it.
pub fn first<T>(list: &[T], count: usize) -> &[T] {
    &list[..count.min(list.len())]
}

// The numbers, and the tail behind them.
fn laid<T: Copy, const N: usize>(numbers: &[T], tail: T) -> [T; N] {
    array::from_fn(|i| numbers.get(i).copied().unwrap_or(tail))
}

impl State {
    // How many numbers are on the sheet.
    pub const NUMBERS: usize = 9 + 9 * PLACES;

    // A sample, with one kind of tail.
    pub fn of(sample: &Sample, tail: Tail) -> State {
        let (zero, unused, none) = match tail {
            Tail::Blank => (0, UNUSED, NONE),
            Tail::Sevens => (7, 7, 7),
        };
        State {
            head: sample.head,
            codes: laid(sample.codes, u64::from(zero)),
            stamps: laid(sample.stamps, zero),
            values: laid(sample.values, u64::from(zero)),
            weights: laid(sample.weights, u64::from(zero)),
            next: laid(sample.next, unused),
            prev: laid(sample.prev, none),
            stack: laid(sample.stack, none),
            cells: laid(sample.cells, none),
            cut: None,
        }
    }

    // The number at a place of the sheet. Behind the cells stands how many places a list has.
    pub fn number(&self, place: usize) -> u64 {
        if Self::NUMBERS <= place {
            return PLACES as u64;
        }
        match Spot::of(place) {
            Spot::Head(i) => at(&numbers(self.head), i),
            Spot::In(List::Codes, i) => at(&self.codes, i),
            Spot::In(List::Stamps, i) => u64::from(at(&self.stamps, i)),
            Spot::In(List::Values, i) => at(&self.values, i),
            Spot::In(List::Weights, i) => at(&self.weights, i),
            Spot::In(List::Next, i) => u64::from(at(&self.next, i)),
            Spot::In(List::Prev, i) => u64::from(at(&self.prev, i)),
            Spot::In(List::Stack, i) => u64::from(at(&self.stack, i)),
            Spot::In(List::Cells, i) => u64::from(at(&self.cells, i)),
        }
    }

    // Stores at a place of the sheet, cut to the width of what stands there.
    pub fn set(&mut self, place: usize, v: u64) {
        match Spot::of(place) {
            Spot::Head(i) => {
                let mut all = numbers(self.head);
                put(&mut all, i, v);
                self.head = head_of(all);
            }
            Spot::In(List::Codes, i) => put(&mut self.codes, i, v),
            Spot::In(List::Stamps, i) => put(&mut self.stamps, i, low(v)),
            Spot::In(List::Values, i) => put(&mut self.values, i, v),
            Spot::In(List::Weights, i) => put(&mut self.weights, i, v),
            Spot::In(List::Next, i) => put(&mut self.next, i, low(v)),
            Spot::In(List::Prev, i) => put(&mut self.prev, i, low(v)),
            Spot::In(List::Stack, i) => put(&mut self.stack, i, low(v)),
            Spot::In(List::Cells, i) => put(&mut self.cells, i, low(v)),
        }
    }

    // Whether the number at a place is one that the slots need.
    pub fn needs(&self, place: usize) -> bool {
        match Spot::of(place) {
            Spot::Head(_) => true,
            Spot::In(list, i) => i < list.needed(self.head.slots),
        }
    }

    // How many places of a list are lent.
    pub fn lent(&self, list: List) -> usize {
        match self.cut {
            Some((cut, length)) if cut == list => length,
            _ => list.needed(PLACES as u32),
        }
    }

    // What the library says of it.
    pub fn inspected(&self) -> bool {
        inspect::inspect(&View {
            head: self.head,
            fields: FieldsView {
                codes: first(&self.codes, self.lent(List::Codes)),
                stamps: first(&self.stamps, self.lent(List::Stamps)),
                values: first(&self.values, self.lent(List::Values)),
                weights: first(&self.weights, self.lent(List::Weights)),
            },
            links: LinksView {
                next: first(&self.next, self.lent(List::Next)),
                prev: first(&self.prev, self.lent(List::Prev)),
                stack: first(&self.stack, self.lent(List::Stack)),
            },
            cells: first(&self.cells, self.lent(List::Cells)),
        })
    }
}
