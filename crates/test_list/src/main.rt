// Drives the list and a plain order of slots through the same acts, compares the two after each, and writes how many agreed.
#![tactic(auto)]

ghost use Rattle.test_kit.specs.Orders.{Within};

use head::Head;
use std::io;
use test_kit::line::Order;
use test_kit::links::Links;
use test_kit::{Count, draw};

// What a turn does, with the place of the order that it is for, or how many leave.
#[derive(Clone, Copy)]
enum Act {
    Push,
    Remove(usize),
    Move(usize),
    Evict(u64),
    Clear,
}

impl Act {
    // What a turn does on so many slots, by two draws.
    fn drawn(r: u64, q: u64, live: u64) -> Act {
        if live == 0 {
            return Act::Push;
        }
        let place = (q / 16 % live) as usize;
        let evict = Act::Evict((1 + q / 256 % 3).min(live));
        match r / 2048 % 32 {
            0..=14 if live < 16 => Act::Push,
            15..=20 => Act::Remove(place),
            21..=27 => Act::Move(place),
            31 if q < 16384 => Act::Clear,
            _ => evict,
        }
    }
}

// How many turns there were of each kind, and after how many the two agreed.
#[derive(Clone, Copy, Default)]
struct Tally {
    push: Count,
    remove: Count,
    moved: Count,
    evict: Count,
    clear: Count,
    agreed: Count,
}

impl Tally {
    fn note(&mut self, act: Act) {
        match act {
            Act::Push => self.push.more(),
            Act::Remove(_) => self.remove.more(),
            Act::Move(_) => self.moved.more(),
            Act::Evict(_) => self.evict.more(),
            Act::Clear => self.clear.more(),
        }
    }
}

// Both sides, and what is carried from turn to turn.
#[derive(Drop)]
struct World {
    list: Links,
    order: Order,
    seed: u64,
    tally: Tally,
    ghost within: { Within order },
}

impl World {
    // Fresh lists.
    fn new() -> World {
        World {
            list: Links::bare(World::head()),
            order: Order::new(),
            seed: 1,
            tally: Tally::default(),
        }
    }

    fn head() -> Head {
        Head::fresh(Head::PLAIN, 16, 16)
    }

    // The same act on both sides.
    fn act(&mut self, act: Act) {
        match act {
            Act::Push => {
                self.list.push();
                self.order.push(0);
            }
            Act::Remove(place) => {
                let slot = u64::from(self.order.slot_at(place).0);
                self.list.remove(slot);
                self.order.remove(place);
            }
            Act::Move(place) => {
                let slot = u64::from(self.order.slot_at(place).0);
                self.list.raise(slot);
                self.order.raise(place);
            }
            Act::Evict(count) => {
                self.list.evict(count);
                self.order.evict(count);
            }
            Act::Clear => {
                self.list.clear();
                self.order.clear();
            }
        }
    }

    // One turn on both sides, which are then compared.
    fn turn(&mut self) {
        let r = draw(self.seed);
        let q = draw(r);
        self.seed = q;
        let act = Act::drawn(r, q, u64::from(self.order.live()));
        self.act(act);
        self.tally.note(act);
        if self.list == self.order.links(World::head()) {
            self.tally.agreed.more();
        }
    }
}

// So many turns, and how many of each kind there were.
pub fn drive(rt: &impl Print, turns: u64) -> io::Result<()> {
    let mut world = World::new();
    for _ in 0..turns {
        world.turn();
    }
    let tally = world.tally;
    println!(rt; "push {}", tally.push)?;
    println!(rt; "remove {}", tally.remove)?;
    println!(rt; "move {}", tally.moved)?;
    println!(rt; "evict {}", tally.evict)?;
    println!(rt; "clear {}", tally.clear)?;
    println!(rt; "agreed {}", tally.agreed)
}

// The long run: 20,000 turns.
fn main(rt: HostRuntime) -> io::Result<()> {
    drive(&rt, 20000)
}
