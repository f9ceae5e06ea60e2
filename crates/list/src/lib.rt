// The recency list over slots: a head by value, and the links in lent lists of numbers.
#![tactic(auto)]

ghost use Rattle.std.specs.Prelude.{◌≡◌, ◌-◌, ◌≤◌, ◌<◌, length, get_or, replicate, drop, ◌++◌};
ghost use Rattle.state.specs.State.{SameLinks};
ghost use Rattle.list.specs.Steps.{put_at, choice};
ghost use Rattle.head.specs.Bounds.{none_mark};
ghost use Rattle.list.specs.Inspect.{links_are, cell_ok, all_from, bare_ok, walk_ok, numbers_ok, Inspected};
ghost use Rattle.list.specs.Promises.{Vacant, Given};
ghost use Rattle.list.specs.Lent.{Room, Unlinked, Fronted, Stackable, Released, Held, Removed, Moved, Spare, Pushed, Enough, Evicted, Cleared, Long};

use head::{Head, Place, Slot};
use state::Links;

// A slot that was taken, and the head after.
#[derive(Clone, Copy)]
pub struct Taken {
    pub head: Head,
    pub slot: Slot,
}

// Stores v at place at, if that is below n.
pub fn put(list: &mut [u32], n: u32, at: u32, v: u32)
    requires { n ≤ length list.old }
    ensures { list.new ≡ put_at n list.old at v }
{
    if at < n {
        list[at as usize] = v;
    }
}

// inside if the slot is below n, else outside.
pub fn choose(n: u32, slot: Slot, inside: Slot, outside: Slot) -> Slot
    ensures { result.0 ≡ choice n slot.0 inside.0 outside.0 }
{
    if slot.0 < n { inside } else { outside }
}

// The number at a place.
pub fn at(list: &[u32], place: u32) -> u32
    requires { place < length list.now }
    ensures { result ≡ get_or list.now place 0 }
{
    list[place as usize]
}

// Takes a slot out of the order: its neighbours are linked to each other.
pub fn unlink(head: Head, links: &mut Links<'_>, slot: Slot) -> Head
    requires { Room head links.old slot.0 }
    ensures lists { SameLinks links.old links.new }
    ensures stack { links.new.stack.now ≡ links.old.stack.now }
    ensures unlinked { Unlinked head links.old result links.new slot.0 }
{
    let n = head.slots;
    let i = slot.0 as usize;
    let p = Slot(links.prev[i]);
    let q = Slot(links.next[i]);
    put(links.next, n, p.0, q.0);
    put(links.prev, n, q.0, p.0);
    Head {
        front: choose(n, p, head.front, q),
        back: choose(n, q, head.back, p),
        ..head
    }
}

// Puts a slot that is in use, and not in the order, at the front of the order.
pub fn link_front(head: Head, links: &mut Links<'_>, slot: Slot) -> Head
    requires { Room head links.old slot.0 }
    ensures lists { SameLinks links.old links.new }
    ensures stack { links.new.stack.now ≡ links.old.stack.now }
    ensures fronted { Fronted head links.old result links.new slot.0 }
{
    let n = head.slots;
    put(links.prev, n, head.front.0, slot.0);
    put(links.prev, n, slot.0, Head::NONE);
    put(links.next, n, slot.0, head.front.0);
    Head {
        front: slot,
        back: choose(n, head.back, head.back, slot),
        ..head
    }
}

// Puts a slot that is in use, and not in the order, on the free stack.
pub fn release(head: Head, links: &mut Links<'_>, slot: Slot) -> Head
    requires { Stackable head links.old slot.0 }
    ensures lists { SameLinks links.old links.new }
    ensures released { Released head links.old result links.new slot.0 }
{
    let n = head.slots;
    let depth = head.depth.0;
    put(links.next, n, slot.0, Head::UNUSED);
    put(links.prev, n, slot.0, depth);
    put(links.stack, n, depth, slot.0);
    Head {
        live: head.live - 1,
        depth: Place(depth + 1),
        ..head
    }
}

// Takes the last slot of the free stack, else slot top. It is in use then, and in no order yet.
pub fn next(head: Head, stack: &mut [u32]) -> Taken
    requires { Vacant head stack.old }
    ensures { Given head result stack.old stack.new }
{
    let live = head.live + 1;
    if head.depth.0 == 0 {
        let top = Slot(head.top.0 + 1);
        return Taken {
            head: Head { live, top, ..head },
            slot: head.top,
        };
    }
    let last = head.depth.0 - 1;
    let s = at(stack, last);
    put(stack, head.slots, last, Head::NONE);
    let depth = Place(last);
    Taken {
        head: Head {
            live,
            depth,
            ..head
        },
        slot: Slot(s),
    }
}

// Takes a slot and puts it at the front of the order.
pub fn push_front(head: Head, links: &mut Links<'_>) -> Taken
    requires { Spare head links.old }
    ensures lists { SameLinks links.old links.new }
    ensures pushed { Pushed head links.old result links.new }
{
    let Taken { head, slot } = crate::next(head, links.stack);
    Taken {
        head: link_front(head, links, slot),
        slot,
    }
}

// Takes the slot out of the order and puts it on the free stack.
pub fn remove(head: Head, links: &mut Links<'_>, slot: Slot) -> Head
    requires { Held head links.old slot.0 }
    ensures lists { SameLinks links.old links.new }
    ensures removed { Removed head links.old result links.new slot.0 }
{
    let loose = unlink(head, links, slot);
    release(loose, links, slot)
}

// Moves a slot of the order to its front.
pub fn move_front(head: Head, links: &mut Links<'_>, slot: Slot) -> Head
    requires { Room head links.old slot.0 }
    ensures lists { SameLinks links.old links.new }
    ensures stack { links.new.stack.now ≡ links.old.stack.now }
    ensures moved { Moved head links.old result links.new slot.0 }
{
    let loose = unlink(head, links, slot);
    link_front(loose, links, slot)
}

// Removes k slots from the back of the order, the last one first.
pub fn evict(head: Head, links: &mut Links<'_>, k: u32) -> Head
    requires { Enough head links.old k }
    ensures lists { SameLinks links.old links.new }
    ensures evicted { Evicted head links.old result links.new k }
{
    let mut left = head;
    for _ in 0..k {
        left = remove(left, links, left.back);
    }
    left
}

// Fills the first n places with v. The slice's own `fill` was tried: for a T that is only Copy the proof did not close.
pub fn fill<T: Copy>(list: &mut [T], n: u32, v: T)
    requires { n ≤ length list.old }
    ensures { list.new ≡ replicate n v ++ drop n list.old }
{
    for x in &mut list[..n as usize] {
        *x = v;
    }
}

// Empties the order and the stack, and counts every slot as never used.
pub fn clear(head: Head, links: &mut Links<'_>) -> Head
    requires { Long head links.old }
    ensures lists { SameLinks links.old links.new }
    ensures cleared { Cleared head links.old result links.new }
{
    let n = head.slots;
    fill(links.next, n, Head::UNUSED);
    fill(links.prev, n, Head::NONE);
    fill(links.stack, n, Head::NONE);
    Head {
        live: 0,
        front: Slot(Head::NONE),
        back: Slot(Head::NONE),
        top: Slot(0),
        depth: Place(0),
        ..head
    }
}

// The slot behind this one in the order, NONE behind the last: the step of a walk from `head.front`.
pub fn after(next: &[u32], slot: Slot) -> Slot
    requires { slot.0 < length next.now }
    ensures { result.0 ≡ get_or next.now slot.0 0 }
{
    Slot(at(next, slot.0))
}

// The slot ahead of this one in the order, NONE ahead of the first: the step of a walk from `head.back`.
// `after` and this read a link alike: one function of any links would not say which way a walk goes.
pub fn ahead(prev: &[u32], slot: Slot) -> Slot
    requires { slot.0 < length prev.now }
    ensures { result.0 ≡ get_or prev.now slot.0 0 }
{
    Slot(at(prev, slot.0))
}

// Whether the slot's links hold n and p.
fn links_are(next: &[u32], prev: &[u32], slot: Slot, n: u32, p: u32) -> bool
    requires { (slot.0 < length next.now) × (slot.0 < length prev.now) }
    ensures { result ≡ links_are next.now prev.now slot.0 n p }
{
    next[slot.0 as usize] == n && prev[slot.0 as usize] == p
}

// Whether the stack's place is right.
fn cell_ok(next: &[u32], prev: &[u32], stack: &[u32], depth: Place, top: Slot, place: Place) -> bool
    requires { (place.0 < length stack.now) × (top.0 ≤ length next.now) × (top.0 ≤ length prev.now) }
    ensures { result ≡ cell_ok next.now prev.now stack.now depth.0 top.0 place.0 }
{
    let slot = stack[place.0 as usize];
    if place.0 < depth.0 {
        slot < top.0 && links_are(next, prev, Slot(slot), Head::UNUSED, place.0)
    } else {
        slot == Head::NONE
    }
}

// Whether each of the stack's first n places is right.
pub fn cells_ok(next: &[u32], prev: &[u32], stack: &[u32], depth: Place, top: Slot, n: u32) -> bool
    requires { (n ≤ length stack.now) × (top.0 ≤ length next.now) × (top.0 ≤ length prev.now) }
    ensures { result ≡ all_from n 0 (cell_ok next.now prev.now stack.now depth.0 top.0) }
{
    (0..n).all(|k| cell_ok(next, prev, stack, depth, top, Place(k)))
}

// Whether each slot from top up to n is bare.
pub fn bare_ok(next: &[u32], prev: &[u32], top: Slot, n: u32) -> bool
    requires { (top.0 ≤ n) × (n ≤ length next.now) × (n ≤ length prev.now) }
    ensures { result ≡ all_from (n - top.0) top.0 (bare_ok next.now prev.now) }
{
    (top.0..n).all(|k| links_are(next, prev, Slot(k), Head::UNUSED, Head::NONE))
}

// Whether a walk of live slots from front ends at back, each slot linked to the one before.
fn walk_ok(next: &[u32], prev: &[u32], top: Slot, back: Slot, live: u32, front: Slot) -> bool
    requires { (top.0 ≤ length next.now) × (top.0 ≤ length prev.now) }
    ensures { result ≡ walk_ok next.now prev.now top.0 back.0 live none_mark front.0 }
{
    let mut last = Head::NONE;
    let mut here = front.0;
    for _ in 0..live {
        if top.0 <= here || prev[here as usize] != last {
            return false;
        }
        last = here;
        here = next[here as usize];
    }
    here == Head::NONE && last == back.0
}

// Whether the head's numbers fit each other, and lists of lengths a, b and c.
pub fn numbers_ok(head: Head, a: usize, b: usize, c: usize) -> bool
    ensures { result ≡ numbers_ok head a b c }
{
    let n = head.slots as usize;
    head.slots <= Head::MOST_SLOTS
        && n <= a
        && n <= b
        && n <= c
        && head.top.0 <= head.slots
        && head.live <= head.top.0
        && head.depth.0 == head.top.0 - head.live
}

// Whether the links are sound: on any numbers, in lists of any length. Some 3N steps at most, and no list of its own.
pub fn inspect_links(head: Head, next: &[u32], prev: &[u32], stack: &[u32]) -> bool
    ensures { Inspected head next.now prev.now stack.now result }
{
    numbers_ok(head, next.len(), prev.len(), stack.len())
        && walk_ok(next, prev, head.top, head.back, head.live, head.front)
        && cells_ok(next, prev, stack, head.depth, head.top, head.slots)
        && bare_ok(next, prev, head.top, head.slots)
}
