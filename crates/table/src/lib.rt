// The lookup table: 2n cells, each the number of a live slot or none. A slot stands at the home of its code or, where that is taken, in a
// cell after it, around the end; no empty cell lies between.
#![tactic(auto)]

ghost use Rattle.std.specs.Prelude.{◌≡◌, ◌*◌, ◌≤◌, ◌<◌, length, get_or, take};
ghost use Rattle.crc.specs.Home.{home_of};
ghost use Rattle.table.specs.Cells.{cell_after, sought};
ghost use Rattle.table.specs.Sound.{Gapped, Sound};
ghost use Rattle.head.specs.Walks.{walk};
ghost use Rattle.table.specs.Links.{Listed, Keyed};
ghost use Rattle.table.specs.Acts.{Slotted, Holding, Live, TakenOut, Rebuilt, Decides, inserted, between, cleared, tallied, counts, standing, all_standing};

use head::{Code, Head, Slot};

// What a search finds: the slot that has the code and its cell, or the empty cell that ended it. `count` is how many cells were read, that
// one included. 01 asks for "a search answer that is an enum"; both of its variants have a cell and a count.
#[derive(Debug, Clone, Copy, PartialEq, Eq)]
pub enum Search {
    Found {
        slot: Slot,
        cell: usize,
        count: usize,
    },
    Empty {
        cell: usize,
        count: usize,
    },
}

// The cell after a cell, around the end.
#[tactic(auto, unfolding(crate::specs::Cells::cell_after, crate::specs::Cells::wrap))]
fn after(cell: usize, m: usize) -> usize
    requires { cell < m }
    ensures { result ≡ cell_after m cell }
{
    if cell + 1 < m { cell + 1 } else { 0 }
}

// Reads cells from the home of the code on until a slot with the code or an empty cell ends the search.
pub fn look(cells: &[u32], codes: &[u64], n: usize, code: Code) -> Search
    requires { Gapped (2 * n) cells.now codes.now }
    ensures { result ≡ sought (home_of n) (2 * n) cells.now codes.now code.0 }
{
    let m = 2 * n;
    let mut cell = crc::home(code, n);
    let mut count: usize = 1;
    // 01 asks for a `loop` with `break` here.
    loop {
        let slot = cells[cell];
        if slot == Head::NONE {
            break Search::Empty { cell, count };
        }
        if codes[slot as usize] == code.0 {
            break Search::Found {
                slot: Slot(slot),
                cell,
                count,
            };
        }
        cell = after(cell, m);
        count += 1;
    }
}

// Puts a slot in the empty cell at which the search for its code ends. Where the code is found nothing changes.
#[tactic(auto, unfolding(crate::specs::Acts::placed))]
pub fn insert(cells: &mut [u32], codes: &[u64], n: usize, slot: Slot)
    requires { Slotted (2 * n) cells.old codes.now slot.0 }
    ensures { cells.new ≡ inserted (home_of n) (2 * n) cells.old codes.now slot.0 }
{
    let code = Code(codes[slot.0 as usize]);
    let Search::Empty { cell, .. } = look(cells, codes, n, code) else {
        return;
    };
    cells[cell] = slot.0;
}

// Is cell j on the way from cell f to cell t, around the end?
#[tactic(auto, unfolding(crate::specs::Acts::between))]
fn on_way(f: usize, j: usize, t: usize) -> bool
    ensures { result ≡ between f j t }
{
    if f <= t {
        f <= j && j <= t
    } else {
        f <= j || j <= t
    }
}

// Takes the slot in a cell out of the table, and shifts back what follows, so that no dead cell is left.
pub fn remove(cells: &mut [u32], codes: &[u64], n: usize, cell: usize)
    requires { Holding (home_of n) (2 * n) cells.old codes.now cell }
    ensures { TakenOut (home_of n) (2 * n) codes.now (get_or cells.old cell 0) cells.old cells.new }
{
    let m = 2 * n;
    // The hole keeps its old number until the end, so that the same cells stay empty on the way.
    let mut hole = cell;
    let mut at = after(cell, m);
    let mut first = at;
    // It goes on to the next empty cell; no turn is counted.
    while cells[at] != Head::NONE {
        let slot = cells[at];
        let home = crc::home(Code(codes[slot as usize]), n);
        let next = after(at, m);
        if !on_way(first, home, at) {
            cells[hole] = slot;
            hole = at;
            first = next;
        }
        at = next;
    }
    cells[hole] = Head::NONE;
}

// Takes a live slot out of the table, wherever it stands.
pub fn remove_slot(cells: &mut [u32], codes: &[u64], n: usize, slot: Slot)
    requires { Live (home_of n) (2 * n) cells.old codes.now slot.0 }
    ensures { TakenOut (home_of n) (2 * n) codes.now slot.0 cells.old cells.new }
{
    let code = Code(codes[slot.0 as usize]);
    let Search::Found { cell, .. } = look(cells, codes, n, code) else {
        return;
    };
    remove(cells, codes, n, cell);
}

// Makes the 2n cells empty.
pub fn clear(cells: &mut [u32], n: usize)
    requires { 2 * n ≤ length cells.old }
    ensures { cells.new ≡ cleared (2 * n) cells.old }
{
    cells[..2 * n].fill(Head::NONE);
}

// Makes the cells anew, from the `live` slots that the links walk from `front` on.
pub fn rebuild(cells: &mut [u32], codes: &[u64], next: &[u32], n: usize, front: Slot, live: u32)
    requires { Keyed n cells.old codes.now next.now (walk next.now front.0 live) }
    ensures { Rebuilt (home_of n) (2 * n) codes.now (walk next.now front.0 live) cells.old cells.new }
{
    clear(cells, n);
    let mut slot = front.0;
    for _ in 0..live {
        insert(cells, codes, n, Slot(slot));
        slot = next[slot as usize];
    }
}

// How many of the 2n cells are not empty, if each of those holds a number below top.
pub fn count_full(cells: &[u32], n: usize, top: usize) -> Option<usize>
    requires { 2 * n ≤ length cells.now }
    ensures { result ≡ tallied top (take (2 * n) cells.now) }
{
    let mut full = 0;
    for cell in &cells[..2 * n] {
        if *cell != Head::NONE {
            if top <= *cell as usize {
                return None;
            }
            full += 1;
        }
    }
    Some(full)
}

// Are as many of the 2n cells full as slots are live, each with a number below top?
#[tactic(auto, using(crate::proofs::Tallies::counts_same))]
pub fn as_many(cells: &[u32], n: usize, top: usize, live: u32) -> bool
    requires { 2 * n ≤ length cells.now }
    ensures { result ≡ counts live (tallied top (take (2 * n) cells.now)) }
{
    count_full(cells, n, top) == Some(live as usize)
}

// Does the search for a slot's code end at that slot?
#[tactic(auto, unfolding(crate::specs::Cells::names))]
pub fn stands(cells: &[u32], codes: &[u64], n: usize, slot: Slot) -> bool
    requires { Slotted (2 * n) cells.now codes.now slot.0 }
    ensures { result ≡ standing (home_of n) (2 * n) cells.now codes.now slot.0 }
{
    let code = Code(codes[slot.0 as usize]);
    let Search::Found { slot: found, .. } = look(cells, codes, n, code) else {
        return false;
    };
    found.0 == slot.0
}

// Does each slot that the links walk stand?
fn all_stand(cells: &[u32], codes: &[u64], next: &[u32], n: usize, front: Slot, live: u32) -> bool
    requires search_ends { Gapped (2 * n) cells.now codes.now }
    requires order_fits { Listed n cells.now codes.now next.now (walk next.now front.0 live) }
    ensures { result ≡ all_standing (home_of n) (2 * n) cells.now codes.now (walk next.now front.0 live) }
{
    let mut asked = front.0;
    for _ in 0..live {
        if !stands(cells, codes, n, Slot(asked)) {
            return false;
        }
        asked = next[asked as usize];
    }
    true
}

// Do the 2n cells describe exactly the `live` slots that the links walk from `front` on? Cells and codes may hold any numbers.
pub fn inspect_cells(
    cells: &[u32],
    codes: &[u64],
    next: &[u32],
    n: usize,
    front: Slot,
    live: u32,
) -> bool
    requires { Listed n cells.now codes.now next.now (walk next.now front.0 live) }
    ensures { Decides result (Sound (home_of n) (2 * n) cells.now codes.now (walk next.now front.0 live)) }
{
    as_many(cells, n, codes.len(), live) && all_stand(cells, codes, next, n, front, live)
}
