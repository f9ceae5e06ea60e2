// Drives a table of 16 slots with random acts, and holds it to plain scans of the links. The table's functions ask for a sound table, so
// each act first has the proved tests say that it is.
#![tactic(auto)]

ghost use Rattle.std.specs.Prelude.{◌≡◌, true, ◌≤◌, ◌<◌, length, IfSome};
ghost use mathlib.Core.List.{Memᴰ};
ghost use Rattle.head.specs.Walks.{walk};
ghost use Rattle.table.specs.Sound.{Gapped};
ghost use Rattle.test_table.specs.Tests.{Proper, Ready};

use head::{Code, Head, Slot};
use std::io;
use table::Search;
use test_kit::{Count, shaken};

const N: usize = 16;

// Is a slot absent from the k slots that the links walk from `from` on? No, too, where a link leads out of the list.
fn absent(next: &[u32], from: u32, k: u32, slot: u32) -> bool
    ensures { result ≡ true → Memᴰ slot (walk next.now from k) → ⊥ }
{
    let mut at = from;
    for left in (0..k).rev() {
        if next.len() <= at as usize || at == slot {
            return false;
        }
        at = next[at as usize];
    }
    true
}

// Do the links walk `live` slots below 16, none of them twice?
fn proper(next: &[u32], front: u32, live: u32) -> bool
    requires { 16 ≤ length next.now }
    ensures { result ≡ true → Proper (walk next.now front live) }
{
    let mut at = front;
    for left in (0..live).rev() {
        if N <= at as usize || !absent(next, next[at as usize], left, at) {
            return false;
        }
        at = next[at as usize];
    }
    true
}

// Something differs, or the table is not sound.
#[derive(Clone, Copy)]
struct Wrong;

// What a slot is taken out by.
#[derive(Clone, Copy)]
enum By {
    Cell,
    Slot,
}

// The table, and the links that it describes.
#[derive(Clone, Copy)]
struct Table {
    cells: [u32; 32],
    codes: [u64; 16],
    next: [u32; 16],
    front: Slot,
    live: u32,
}

impl Table {
    // No slot is on the links.
    fn new() -> Table {
        Table {
            cells: [Head::NONE; 32],
            codes: [0; 16],
            next: [0; 16],
            front: Slot(Head::NONE),
            live: 0,
        }
    }

    // Are the links proper, and do the cells describe them?
    fn is_sound(&self) -> bool
        ensures ready { result ≡ true → Ready self.now.cells self.now.codes self.now.next (walk self.now.next self.now.front.0 self.now.live) }
        ensures gapped { result ≡ true → Gapped 32 self.now.cells self.now.codes }
    {
        if 16 < self.live || !proper(&self.next, self.front.0, self.live) {
            return false;
        }
        table::inspect_cells(
            &self.cells,
            &self.codes,
            &self.next,
            N,
            self.front,
            self.live,
        )
    }

    // The slot on the links that has a code: a plain scan.
    fn scan(&self, code: Code) -> Option<Slot> {
        let mut at = self.front.0;
        for _ in 0..self.live {
            let i = at as usize;
            if *self.codes.get(i)? == code.0 {
                return Some(Slot(at));
            }
            at = *self.next.get(i)?;
        }
        None
    }

    // Whether a search finds a code, held to the scan and to live + 1 cells.
    fn search(&self, code: Code) -> Result<bool, Wrong> {
        if !self.is_sound() {
            return Err(Wrong);
        }
        let (slot, count) = match table::look(&self.cells, &self.codes, N, code) {
            Search::Found { slot, count, .. } => (Some(slot), count),
            Search::Empty { count, .. } => (None, count),
        };
        if slot != self.scan(code) || count == 0 || self.live as usize + 1 < count {
            return Err(Wrong);
        }
        Ok(slot.is_some())
    }

    // The first slot that is not on the links.
    fn free_slot(&self) -> Option<Slot>
        ensures { IfSome result (λ slot. slot.0 < 16) }
    {
        (0..16)
            .find(|slot| absent(&self.next, self.front.0, self.live, *slot))
            .map(Slot)
    }

    // A slot with this code comes in front of the links. No, where every slot is on them.
    fn insert(&mut self, code: Code) -> Result<bool, Wrong> {
        if 16 <= self.live {
            return Ok(false);
        }
        let slot = self.free_slot().ok_or(Wrong)?;
        let i = slot.0 as usize;
        self.codes[i] = code.0;
        if !self.is_sound() {
            return Err(Wrong);
        }
        table::insert(&mut self.cells, &self.codes, N, slot);
        self.next[i] = self.front.0;
        self.front = slot;
        self.live += 1;
        Ok(true)
    }

    // Takes the slot that has a code out of the cells.
    fn take(&mut self, code: Code, by: By) -> Result<Slot, Wrong> {
        if !self.is_sound() {
            return Err(Wrong);
        }
        let Search::Found { slot, cell, .. } = table::look(&self.cells, &self.codes, N, code) else {
            return Err(Wrong);
        };
        match by {
            By::Cell => table::remove(&mut self.cells, &self.codes, N, cell),
            By::Slot => table::remove_slot(&mut self.cells, &self.codes, N, slot),
        }
        Ok(slot)
    }

    // The slot behind a slot, none past the end.
    fn after(&self, slot: Slot) -> Slot {
        Slot(*self.next.get(slot.0 as usize).unwrap_or(&Head::NONE))
    }

    // The slot that has a code leaves the table and the links: what led to it leads to the one behind it.
    fn remove(&mut self, code: Code, by: By) -> Result<(), Wrong> {
        let slot = self.take(code, by)?;
        let after = self.after(slot);
        if self.front == slot {
            self.front = after;
        }
        for link in &mut self.next {
            if *link == slot.0 {
                *link = after.0;
            }
        }
        self.live = self.live.checked_sub(1).ok_or(Wrong)?;
        Ok(())
    }

    // No slot is on the links any more.
    fn clear(&mut self) {
        table::clear(&mut self.cells, N);
        self.front = Slot(Head::NONE);
        self.live = 0;
    }

    // Makes the cells anew from the links.
    fn rebuild(&mut self) -> Result<(), Wrong> {
        if !self.is_sound() {
            return Err(Wrong);
        }
        table::rebuild(
            &mut self.cells,
            &self.codes,
            &self.next,
            N,
            self.front,
            self.live,
        );
        Ok(())
    }
}

// What the searches and the acts came to.
#[derive(Clone, Copy, Default)]
struct Counts {
    found: Count,
    absent: Count,
    inserted: Count,
    removed: Count,
    cleared: Count,
    rebuilt: Count,
    wrong: Count,
}

// What is carried from round to round.
#[derive(Clone, Copy)]
struct Run {
    table: Table,
    seed: u64,
    counts: Counts,
}

impl Run {
    // A fresh table.
    fn new() -> Run {
        Run {
            table: Table::new(),
            seed: 88172645463325252,
            counts: Counts::default(),
        }
    }

    // A search for a code, and what follows it by a draw below 128.
    fn act(&mut self, code: Code, draw: u64) -> Result<(), Wrong> {
        let found = self.table.search(code)?;
        if found {
            self.counts.found.more();
        } else {
            self.counts.absent.more();
        }
        match draw {
            0..=39 if found => {
                let by = if draw < 20 { By::Cell } else { By::Slot };
                self.table.remove(code, by)?;
                self.counts.removed.more();
            }
            0..=79 if !found => {
                if self.table.insert(code)? {
                    self.counts.inserted.more();
                }
            }
            0..=111 => {}
            127 => {
                self.table.clear();
                self.counts.cleared.more();
            }
            _ => {
                self.table.rebuild()?;
                self.counts.rebuilt.more();
            }
        }
        Ok(())
    }

    // A random code, and a random act.
    fn round(&mut self) {
        self.seed = shaken(self.seed);
        let code = Code((self.seed >> 8) % 24);
        if self.act(code, (self.seed >> 20) % 128).is_err() {
            self.counts.wrong.more();
        }
    }
}

// So many rounds on a fresh table, and how they went.
pub fn drive(rt: &impl Print, rounds: usize) -> io::Result<()> {
    let mut run = Run::new();
    for _ in 0..rounds {
        run.round();
    }
    let counts = run.counts;
    println!(rt; "rounds {rounds}")?;
    println!(rt;
        "found where the scan finds, count within live + 1 {}",
        counts.found
    )?;
    println!(rt;
        "absent where the scan finds nothing, count within live + 1 {}",
        counts.absent
    )?;
    println!(rt; "inserted {}", counts.inserted)?;
    println!(rt; "removed {}", counts.removed)?;
    println!(rt; "cleared {}", counts.cleared)?;
    println!(rt; "rebuilt {}", counts.rebuilt)?;
    println!(rt; "left with links {}", run.table.live)?;
    println!(rt; "unsound or different {}", counts.wrong)
}

// The long run: 20,000 rounds.
fn main(rt: HostRuntime) -> io::Result<()> {
    drive(&rt, 20000)
}
