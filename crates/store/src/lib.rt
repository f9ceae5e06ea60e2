// The state as a whole: the entries' fields, the links and the table, and the few acts that change them together.
#![tactic(auto)]

ghost use Rattle.std.specs.Prelude.{◌≡◌, ◌≤◌, ◌<◌, ◌*◌, length, set};
ghost use Rattle.state.specs.State.{lent, seen, SameLists};
ghost use Rattle.crc.specs.Home.{home_of};
ghost use Rattle.head.specs.Walks.{walk};
ghost use Rattle.table.specs.Acts.{Slotted, Live, TakenOut, Rebuilt, inserted};
ghost use Rattle.table.specs.Links.{Keyed};
ghost use Rattle.store.specs.Lengths.{long_enough, spacious};
ghost use Rattle.store.specs.Acts.{Occupied, Dropped, Admits, Added, Rich, Shed, Spacious, Emptied, Holds, Capped};

use head::{Head, Row, Slot};
use state::{Fields, Links, State, View};

// Whether lists of these lengths have room for n slots: a caller can ask it before it has the lists.
pub fn long_enough(
    n: u32,
    codes: usize,
    stamps: usize,
    values: usize,
    weights: usize,
    next: usize,
    prev: usize,
    stack: usize,
    cells: usize,
) -> bool
    ensures { result ≡ long_enough n codes stamps values weights next prev stack cells }
{
    let m = n as usize;
    m <= codes
        && m <= stamps
        && m <= values
        && m <= weights
        && m <= next
        && m <= prev
        && m <= stack
        && 2 * m <= cells
}

// Whether the lists of a state have room for n slots.
pub fn has_room(n: u32, view: &View<'_>) -> bool
    ensures { result ≡ spacious n (seen view.now) }
{
    long_enough(
        n,
        view.fields.codes.len(),
        view.fields.stamps.len(),
        view.fields.values.len(),
        view.fields.weights.len(),
        view.links.next.len(),
        view.links.prev.len(),
        view.links.stack.len(),
        view.cells.len(),
    )
}

// Sets the value in a slot.
pub fn set_value(values: &mut [u64], slot: Slot, value: u64)
    requires { slot.0 < length values.old }
    ensures { values.new ≡ set values.old slot.0 value }
{
    values[slot.0 as usize] = value;
}

// The acts of the table, on two parts of a state that are lent side by side: of a list lent straight out of a part nothing is known in the end.

fn insert(cells: &mut &mut [u32], fields: &Fields<'_>, n: usize, slot: Slot)
    requires { Slotted (2 * n) cells.old.now fields.now.codes.now slot.0 }
    ensures list { cells.new.ghost_name ≡ cells.old.ghost_name }
    ensures inserted { cells.new.now ≡ inserted (home_of n) (2 * n) cells.old.now fields.now.codes.now slot.0 }
{
    table::insert(cells, fields.codes, n, slot);
}

fn remove_slot(cells: &mut &mut [u32], fields: &Fields<'_>, n: usize, slot: Slot)
    requires { Live (home_of n) (2 * n) cells.old.now fields.now.codes.now slot.0 }
    ensures list { cells.new.ghost_name ≡ cells.old.ghost_name }
    ensures removed { TakenOut (home_of n) (2 * n) fields.now.codes.now slot.0 cells.old.now cells.new.now }
{
    table::remove_slot(cells, fields.codes, n, slot);
}

fn rebuild(cells: &mut &mut [u32], fields: &Fields<'_>, links: &Links<'_>, head: Head)
    requires { Keyed head.slots cells.old.now fields.now.codes.now links.now.next.now (walk links.now.next.now head.front.0 head.live) }
    ensures list { cells.new.ghost_name ≡ cells.old.ghost_name }
    ensures rebuilt { Rebuilt (home_of head.slots) (2 * head.slots) fields.now.codes.now (walk links.now.next.now head.front.0 head.live) cells.old.now cells.new.now }
{
    table::rebuild(
        cells,
        fields.codes,
        links.next,
        head.slots as usize,
        head.front,
        head.live,
    );
}

// Takes the entry in a slot out: out of the table, its fields zeroed, the slot on the free stack.
pub fn remove(state: &mut State<'_>, slot: Slot)
    requires { Occupied (lent state.old) slot.0 }
    ensures lists { SameLists state.old state.new }
    ensures dropped { Dropped (lent state.old) (lent state.new) slot.0 }
{
    let head = state.head;
    let weight = state.fields.weights[slot.0 as usize];
    remove_slot(&mut state.cells, &state.fields, head.slots as usize, slot);
    state.fields.write(slot.0, Row::BLANK);
    let left = list::remove(head, &mut state.links, slot);
    state.head = left.with_weight(left.weight - weight);
}

// Places a new entry in front, in the slot that the free stack or `top` gives.
pub fn add(state: &mut State<'_>, row: Row)
    requires { Admits (lent state.old) row }
    ensures lists { SameLists state.old state.new }
    ensures added { Added (lent state.old) (lent state.new) row }
{
    let head = state.head;
    let weight = head.weight + row.weight;
    let taken = list::push_front(head, &mut state.links);
    state.fields.write(taken.slot.0, row);
    insert(
        &mut state.cells,
        &state.fields,
        head.slots as usize,
        taken.slot,
    );
    state.head = taken.head.with_weight(weight);
}

// Takes k entries out from the back, the oldest first.
pub fn evict(state: &mut State<'_>, k: u32)
    requires { Rich (lent state.old) k }
    ensures lists { SameLists state.old state.new }
    ensures shed { Shed (lent state.old) (lent state.new) k }
{
    for _ in 0..k {
        let oldest = state.head.back;
        remove(state, oldest);
    }
}

// Empties everything: no slot in use, every field 0, every cell none. The lists may have held any numbers before.
pub fn empty(state: &mut State<'_>)
    requires { Spacious (lent state.old) }
    ensures lists { SameLists state.old state.new }
    ensures emptied { Emptied (lent state.old) (lent state.new) }
{
    let head = state.head;
    let n = head.slots;
    list::fill(state.fields.codes, n, 0);
    list::fill(state.fields.stamps, n, 0);
    list::fill(state.fields.values, n, 0);
    list::fill(state.fields.weights, n, 0);
    table::clear(state.cells, n as usize);
    let left = list::clear(head, &mut state.links);
    state.head = left.with_weight(0);
}

// Sets the capacity. A smaller one puts the entry at place i in slot i, fields and all, and makes the table anew; any other moves nothing.
pub fn resize(state: &mut State<'_>, capacity: u64)
    requires { Holds (lent state.old) capacity }
    ensures lists { SameLists state.old state.new }
    ensures capped { Capped (lent state.old) (lent state.new) capacity }
{
    let before = state.head.capacity;
    compact::resize(state, capacity);
    if capacity < before {
        let head = state.head;
        rebuild(&mut state.cells, &state.fields, &state.links, head);
    }
}
