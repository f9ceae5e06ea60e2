// Shrinking a list of slots: the entry at place i comes to slot i, in place. The links are written anew at the end, so until then
// the stack's cells and prev serve as the memory that this takes.
#![tactic(auto)]

ghost use Rattle.std.specs.Prelude.{◌≡◌, ◌≤◌, ◌<◌, length, take};
ghost use Rattle.state.specs.State.{held, lent, SameFields, SameLinks, SameLists};
ghost use Rattle.head.specs.Bounds.{most_slots};
ghost use Rattle.head.specs.Walks.{walk};
ghost use Rattle.compact.specs.Plan.{exchanges};
ghost use Rattle.compact.specs.Anew.{HeadOf, FrontOf, BackOf, NextOf, PrevOf, StackOf};
ghost use Rattle.compact.specs.Compact.{Exchangeable, AllExchangeable, Exchanged};
ghost use Rattle.compact.specs.Lent.{Walkable, Numbered, Plannable, Planned, Writable, LinksWritten, Compactable, Reordered, Resizable, Resized};

use head::{Head, Place, Slot};
use list::put;
use state::{Fields, Links, State};

// Writes the order into the stack's cells, front first, and each slot's place in it into prev, none for the slots outside it.
fn number(links: &mut Links<'_>, front: u32, n: u32, live: u32)
    requires { Walkable n live front links.old }
    ensures lists { SameLinks links.old links.new }
    ensures next { links.new.next.now ≡ links.old.next.now }
    ensures numbered { Numbered n (walk links.old.next.now front live) links.old links.new }
{
    list::fill(links.prev, n, Head::NONE);
    let mut s = front;
    for k in 0..live {
        links.stack[k as usize] = s;
        links.prev[s as usize] = k;
        s = links.next[s as usize];
    }
}

// Turns the order in the stack's cells into the row of exchanges that brings each entry to its place. What stands in slot i, of
// place k or of none, goes to slot s, so the order's place k names s from then on.
fn plan(links: &mut Links<'_>, n: u32, live: u32)
    requires { Plannable n live links.old }
    ensures lists { SameLinks links.old links.new }
    ensures next { links.new.next.now ≡ links.old.next.now }
    ensures planned { Planned n (take live links.old.stack.now) links.old links.new }
{
    for i in 0..live as usize {
        let s = links.stack[i];
        let k = links.prev[i];
        put(links.prev, n, s, k);
        put(links.stack, live, k, s);
    }
}

// Leaves in the stack's cells the row of exchanges that brings each entry to its place.
fn arrange(links: &mut Links<'_>, front: u32, n: u32, live: u32)
    requires { Walkable n live front links.old }
    ensures lists { SameLinks links.old links.new }
    ensures next { links.new.next.now ≡ links.old.next.now }
    ensures planned { Planned n (walk links.old.next.now front live) links.old links.new }
{
    number(links, front, n, live);
    plan(links, n, live);
}

// Exchanges element i with element row[i], for each i in turn.
fn exchange<T: Copy>(list: &mut [T], row: &[u32])
    requires { Exchangeable row.now list.old }
    ensures { list.new ≡ exchanges 0 row.now list.old }
{
    for (i, s) in row.iter().enumerate() {
        list.swap(i, *s as usize);
    }
}

// Each list of fields in the same row.
fn exchange_fields(fields: &mut Fields<'_>, links: &Links<'_>, live: u32)
    requires long { live ≤ length links.now.stack.now }
    requires row { AllExchangeable (take live links.now.stack.now) (held fields.old) }
    ensures lists { SameFields fields.old fields.new }
    ensures exchanged { Exchanged (take live links.now.stack.now) (held fields.old) (held fields.new) }
{
    let row = &links.stack[..live as usize];
    exchange(fields.codes, row);
    exchange(fields.stamps, row);
    exchange(fields.values, row);
    exchange(fields.weights, row);
}

// The links of a compact list: what the head's ends, a slot's links and a cell of the stack hold.
fn front_of(live: u32) -> u32
    ensures { FrontOf live result }
{
    if live == 0 { Head::NONE } else { 0 }
}

fn back_of(live: u32) -> u32
    ensures { BackOf live result }
{
    if live == 0 { Head::NONE } else { live - 1 }
}

fn next_of(live: u32, i: u32) -> u32
    requires { i < most_slots }
    ensures { NextOf live i result }
{
    if i + 1 < live {
        i + 1
    } else if i < live {
        Head::NONE
    } else {
        Head::UNUSED
    }
}

fn prev_of(live: u32, top: u32, i: u32) -> u32
    ensures { PrevOf live top i result }
{
    if i < live {
        if i == 0 { Head::NONE } else { i - 1 }
    } else if i < top {
        i - live
    } else {
        Head::NONE
    }
}

fn stack_of(live: u32, top: u32, k: u32) -> u32
    requires { (live ≤ top) × (top ≤ most_slots) }
    ensures { StackOf live top k result }
{
    if k < top - live { live + k } else { Head::NONE }
}

// Writes the links of n slots: those below live in this order, those from there to top on the stack.
fn write_links(links: &mut Links<'_>, n: u32, live: u32, top: u32)
    requires { Writable n live top links.old }
    ensures lists { SameLinks links.old links.new }
    ensures written { LinksWritten n live top links.old links.new }
{
    for i in 0..n {
        links.next[i as usize] = next_of(live, i);
        links.prev[i as usize] = prev_of(live, top, i);
        links.stack[i as usize] = stack_of(live, top, i);
    }
}

// The head of a compact list.
fn head_of(head: Head, top: Slot) -> Head
    requires { head.live ≤ top.0 }
    ensures { HeadOf head top.0 result }
{
    Head {
        front: Slot(front_of(head.live)),
        back: Slot(back_of(head.live)),
        top,
        depth: Place(top.0 - head.live),
        ..head
    }
}

// Puts the entry at place i of the order in slot i, with its fields, and makes the stack live..top, ascending. The table is left as it is.
pub fn reorder(state: &mut State<'_>, top: Slot)
    requires { Compactable (lent state.old) top.0 }
    ensures lists { SameLists state.old state.new }
    ensures cells { (lent state.new).cells ≡ (lent state.old).cells }
    ensures reordered { Reordered (lent state.old) (lent state.new) top.0 }
{
    let head = state.head;
    arrange(&mut state.links, head.front.0, head.slots, head.live);
    exchange_fields(&mut state.fields, &state.links, head.live);
    write_links(&mut state.links, head.slots, head.live, top.0);
    state.head = head_of(head, top);
}

// Sets the capacity, which holds all entries. Where it shrinks, the entry at place i of the order comes to slot i, and the slots
// from there to the smaller of top and the capacity are the stack, ascending. Otherwise no slot moves. The table is left as it is.
pub fn resize(state: &mut State<'_>, capacity: u64)
    requires { Resizable (lent state.old) capacity }
    ensures lists { SameLists state.old state.new }
    ensures cells { (lent state.new).cells ≡ (lent state.old).cells }
    ensures resized { Resized (lent state.old) (lent state.new) capacity }
{
    let head = state.head;
    if head.capacity <= capacity {
        state.head = head.with_capacity(capacity);
    } else {
        reorder(state, Slot(capacity.min(u64::from(head.top.0)) as u32));
        let compact = state.head;
        state.head = compact.with_capacity(capacity);
    }
}
