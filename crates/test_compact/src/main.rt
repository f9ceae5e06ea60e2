// Drives a list of slots with its fields, and a plain order beside it, through the same acts and changes of capacity, compares every
// number of the two after each, and writes how many agreed.
#![tactic(auto)]

ghost use Rattle.std.specs.Prelude.{◌≡◌, true};
ghost use Rattle.state.specs.State.{seen};
ghost use Rattle.compact.specs.Compact.{Resizable};
ghost use Rattle.test_kit.specs.Orders.{Within};

use head::{Code, Head, Place, Row, Slot};
use state::{State, View};
use std::cmp::Ordering;
use std::io;
use test_kit::line::Order;
use test_kit::links::Links;
use test_kit::{Count, draw};

// The weight of the head, which no turn changes.
const WEIGHT: u64 = 5;

// The capacity stays between 1 and this: it may be more than the slots.
const MOST: u64 = 24;

// ---- the list with its fields

// The entry that a mark stands for: unlike those of other marks in each of its numbers but the stamp.
fn row_of(mark: u64) -> Row {
    let n = mark % 281474976710656;
    Row {
        code: Code(n + 1),
        stamp: u32::MAX - (n % 65536) as u32,
        value: u64::MAX - n,
        weight: n * 16 + 7,
    }
}

// The numbers of the entries, slot by slot.
#[derive(Debug, Clone, Copy, PartialEq, Eq)]
pub struct Fields {
    pub codes: [u64; 16],
    pub stamps: [u32; 16],
    pub values: [u64; 16],
    pub weights: [u64; 16],
}

impl Fields {
    // No slot holds anything.
    fn blank() -> Fields {
        Fields {
            codes: [0; 16],
            stamps: [0; 16],
            values: [0; 16],
            weights: [0; 16],
        }
    }

    // The fields of an order: each slot holds the entry of its mark, or zeros where it is not in use.
    fn of(order: &Order) -> Fields {
        let mut fields = Fields::blank();
        for entry in order.entries.iter().take(order.live as usize) {
            fields.write(entry.slot, row_of(entry.mark));
        }
        fields
    }

    // A slot's numbers; nothing past the slots.
    fn write(&mut self, slot: Slot, row: Row) {
        let i = slot.0 as usize;
        if i < 16 {
            self.codes[i] = row.code.0;
            self.stamps[i] = row.stamp;
            self.values[i] = row.value;
            self.weights[i] = row.weight;
        }
    }
}

// The list with its fields.
#[derive(Debug, Clone, Copy, PartialEq, Eq)]
pub struct Lists {
    pub links: Links,
    pub fields: Fields,
}

impl Lists {
    // The list with its fields that an order asks for, at a capacity. The head's other numbers are written out: not by the calls that made the one under test.
    fn of(order: &Order, capacity: u64) -> Lists {
        let head = Head {
            kind: Head::WEIGHED,
            capacity,
            slots: 16,
            live: 0,
            weight: WEIGHT,
            front: Slot(0),
            back: Slot(0),
            top: Slot(0),
            depth: Place(0),
        };
        Lists {
            links: order.links(head),
            fields: Fields::of(order),
        }
    }

    // Zeros in each slot that is not in use.
    fn wipe(&mut self) {
        for slot in 0..16 {
            if self.links.next[slot as usize] == Head::UNUSED {
                self.fields.write(Slot(slot), Row::BLANK);
            }
        }
    }

    // An entry comes to the front.
    fn push(&mut self, mark: u64) {
        self.links.push();
        self.fields.write(self.links.head.front, row_of(mark));
    }

    // The entry in a slot leaves.
    fn remove(&mut self, slot: u64) {
        self.links.remove(slot);
        self.wipe();
    }

    // So many entries leave by the back.
    fn evict(&mut self, count: u64) {
        self.links.evict(count);
        self.wipe();
    }

    // Head and lists, lent to be changed. There is no table.
    fn lent(&mut self) -> State<'_> {
        let Links {
            head,
            next,
            prev,
            stack,
        } = &mut self.links;
        let Fields {
            codes,
            stamps,
            values,
            weights,
        } = &mut self.fields;
        State {
            head: *head,
            fields: state::Fields {
                codes,
                stamps,
                values,
                weights,
            },
            links: state::Links { next, prev, stack },
            cells: &mut [],
        }
    }

    // Sets the capacity. Where it cannot be set, nothing is done.
    fn resize(&mut self, capacity: u64) {
        let mut state = self.lent();
        if is_ready(&state.view(), capacity) {
            compact::resize(&mut state, capacity);
            self.links.head = state.head;
        }
    }
}

// Whether the capacity can be set.
fn is_ready(view: &View<'_>, capacity: u64) -> bool
    ensures { result ≡ true → Resizable view.now.head (seen view.now).nexts (seen view.now).prevs (seen view.now).stack (seen view.now).fields capacity }
{
    let head = view.head;
    if capacity < u64::from(head.live) || view.fields.room() < head.slots as usize {
        return false;
    }
    let links = view.links;
    list::inspect_links(head, links.next, links.prev, links.stack)
}

// ---- the turns

// The head of a cache that holds nothing.
fn fresh(capacity: u64) -> Head {
    Head::fresh(Head::WEIGHED, capacity, 16).with_weight(WEIGHT)
}

// What a turn does: with the place of the order that it is for, or how many leave, or the capacity from then on.
#[derive(Clone, Copy)]
enum Act {
    Push,
    Remove(usize),
    Evict(u64),
    Resize(u64),
}

impl Act {
    // What a turn does on so many entries and a capacity, by two draws.
    fn drawn(r: u64, q: u64, live: u64, capacity: u64) -> Act {
        let evict = Act::Evict((1 + q / 256 % 3).min(live));
        let shrink = Act::Resize(capacity.saturating_sub(1 + q / 64 % 5).max(1));
        let grow = Act::Resize(if capacity < 18 {
            capacity + 1 + q / 64 % 6
        } else {
            MOST
        });
        match r / 2048 % 32 {
            0..=15 if live < capacity.min(16) => Act::Push,
            0..=15 => evict,
            16..=21 if live == 0 => Act::Resize(capacity),
            16..=21 => Act::Remove((q / 16 % live) as usize),
            22 | 23 => evict,
            24..=27 if 1 < capacity => shrink,
            24..=27 => grow,
            28 => Act::Resize(capacity),
            _ if capacity < MOST => grow,
            _ => shrink,
        }
    }
}

// How many turns there were of each kind, and after how many the two agreed.
#[derive(Clone, Copy, Default)]
struct Tally {
    push: Count,
    remove: Count,
    evict: Count,
    shrink: Count,
    equal: Count,
    grow: Count,
    agreed: Count,
}

impl Tally {
    // Counts an act at a capacity.
    fn note(&mut self, act: Act, capacity: u64) {
        match act {
            Act::Push => self.push.more(),
            Act::Remove(_) => self.remove.more(),
            Act::Evict(_) => self.evict.more(),
            Act::Resize(new) => match new.cmp(&capacity) {
                Ordering::Less => self.shrink.more(),
                Ordering::Equal => self.equal.more(),
                Ordering::Greater => self.grow.more(),
            },
        }
    }
}

// Both sides, and what is carried from turn to turn. The capacity is the plain side's.
#[derive(Drop)]
struct World {
    lists: Lists,
    order: Order,
    capacity: u64,
    seed: u64,
    tally: Tally,
    ghost within: { Within order },
}

impl World {
    // Fresh lists.
    fn new() -> World {
        World {
            lists: Lists {
                links: Links::bare(fresh(12)),
                fields: Fields::blank(),
            },
            order: Order::new(),
            capacity: 12,
            seed: 1,
            tally: Tally::default(),
        }
    }

    // So many entries leave by the back, on both sides.
    fn evict(&mut self, count: u64) {
        self.lists.evict(count);
        self.order.evict(count);
    }

    // Sets the capacity on both sides. First those leave that it cannot hold.
    fn resize(&mut self, capacity: u64) {
        let live = u64::from(self.order.live());
        self.evict(live.saturating_sub(capacity));
        self.lists.resize(capacity);
        if capacity < self.capacity {
            let top = u64::from(self.order.top).min(capacity);
            self.order.compact(top);
        }
        self.capacity = capacity;
    }

    // The same act on both sides.
    fn act(&mut self, act: Act, mark: u64) {
        match act {
            Act::Push => {
                self.lists.push(mark);
                self.order.push(mark);
            }
            Act::Remove(place) => {
                let slot = u64::from(self.order.slot_at(place).0);
                self.lists.remove(slot);
                self.order.remove(place);
            }
            Act::Evict(count) => self.evict(count),
            Act::Resize(capacity) => self.resize(capacity),
        }
    }

    // One turn on both sides, which are then compared. So many turns are left.
    fn turn(&mut self, left: u64) {
        let r = draw(self.seed);
        let q = draw(r);
        self.seed = q;
        let act = Act::drawn(r, q, u64::from(self.order.live()), self.capacity);
        self.tally.note(act, self.capacity);
        // Each turn's own mark.
        self.act(act, left % 4294967296 * 65536 + q % 65536);
        if self.lists == Lists::of(&self.order, self.capacity) {
            self.tally.agreed.more();
        }
    }
}

// So many turns, and how many of each kind there were.
pub fn drive(rt: &impl Print, turns: u64) -> io::Result<()> {
    let mut world = World::new();
    for left in (1..=turns).rev() {
        world.turn(left);
    }
    let tally = world.tally;
    println!(rt; "push {}", tally.push)?;
    println!(rt; "remove {}", tally.remove)?;
    println!(rt; "evict {}", tally.evict)?;
    println!(rt; "shrink {}", tally.shrink)?;
    println!(rt; "equal {}", tally.equal)?;
    println!(rt; "grow {}", tally.grow)?;
    println!(rt; "agreed {}", tally.agreed)
}

// The long run: 20,000 turns.
fn main(rt: HostRuntime) -> io::Result<()> {
    drive(&rt, 20000)
}
