// Whether a head and its lent lists describe a cache: the test at the door, on any numbers, in lists of any length.
#![tactic(auto)]

ghost use Rattle.std.specs.Prelude.{◌≡◌, ◌-◌, ◌*◌, ◌≤◌, ◌<◌, length, get_or, take};
ghost use Rattle.head.specs.Bounds.{none_mark, most_slots};
ghost use Rattle.head.specs.Fields.{Reach};
ghost use Rattle.crc.specs.Home.{home_of};
ghost use Rattle.list.specs.Inspect.{all_from, walk_ok, cell_ok, links_ok};
ghost use Rattle.table.specs.Sound.{Gapped};
ghost use Rattle.table.specs.Acts.{Decides, tallied, counts};
ghost use Rattle.state.specs.State.{seen, viewed};
ghost use Rattle.store.specs.State.{Sound};
ghost use Rattle.store.specs.Acts.{Writable};
ghost use Rattle.inspect.specs.Tests.{head_ok, used_stands, sum_ok, is_at, blank_at, stack_blank, Piled};

use head::{Code, Head, Place, Slot};
use state::{FieldsView, View};

// Whether the head's numbers fit each other.
#[tactic(auto, unfolding(crate::specs::Tests::head_ok))]
fn head_ok(head: Head) -> bool
    ensures { result ≡ head_ok head }
{
    Head::allows(head.kind, head.capacity, head.slots)
        && head.weight <= head.capacity
        && u64::from(head.live) <= head.capacity - head.weight
        && (head.kind != Head::PLAIN || head.weight == 0)
}

// Whether a walk of `more` slots behind slot a ends at slot b, each slot linked to the one before. It goes from both ends to the middle: the two
// reads of a step do not wait for each other.
fn meets(next: &[u32], prev: &[u32], top: u32, a: u32, b: u32, more: u32) -> bool
    requires links_reach { (top ≤ length next.now) × (top ≤ length prev.now) }
    requires ends { (a < top) × (b < top) × (get_or next.now b 0 ≡ none_mark) }
    ensures { result ≡ walk_ok next.now prev.now top b more a (get_or next.now a 0) }
{
    let mut front = a;
    let mut back = b;
    for _ in 0..more / 2 {
        let q = next[front as usize];
        let p = prev[back as usize];
        if top <= q || top <= p || prev[q as usize] != front || next[p as usize] != back {
            return false;
        }
        front = q;
        back = p;
    }
    if more % 2 == 0 {
        front == back
    } else {
        next[front as usize] == back && prev[back as usize] == front
    }
}

// Whether a walk of live slots from front ends at back, each slot linked to the one before.
#[tactic(auto, using(crate::proofs::Ends::walk_laws))]
fn walk_links(next: &[u32], prev: &[u32], top: u32, back: u32, live: u32, front: u32) -> bool
    requires { (top ≤ length next.now) × (top ≤ length prev.now) }
    ensures { result ≡ walk_ok next.now prev.now top back live none_mark front }
{
    if live == 0 {
        return front == Head::NONE && back == Head::NONE;
    }
    front < top
        && prev[front as usize] == Head::NONE
        && back < top
        && next[back as usize] == Head::NONE
        && meets(next, prev, top, front, back, live - 1)
}

// Whether each of the stack's places from depth up to n holds none. The bits that differ are gathered, so that the loop has no branch.
fn none_from(stack: &[u32], depth: u32, n: u32) -> bool
    requires { (depth ≤ n) × (n ≤ length stack.now) }
    ensures { result ≡ all_from (n - depth) depth (is_at none_mark stack.now) }
{
    let mut other = 0;
    for place in &stack[depth as usize..n as usize] {
        other |= *place ^ Head::NONE;
    }
    other == 0
}

// Whether each of the stack's first n places is right: a free slot that knows its place below depth, none from there on.
#[tactic(auto, using(crate::proofs::Parts::low_fails, crate::proofs::Parts::high_decides))]
fn stack_ok(next: &[u32], prev: &[u32], stack: &[u32], depth: Place, top: Slot, n: u32) -> bool
    requires stack_reaches { (depth.0 ≤ n) × (n ≤ length stack.now) }
    requires links_reach { (top.0 ≤ length next.now) × (top.0 ≤ length prev.now) }
    ensures { result ≡ all_from n 0 (cell_ok next.now prev.now stack.now depth.0 top.0) }
{
    list::cells_ok(next, prev, stack, depth, top, depth.0) && none_from(stack, depth.0, n)
}

// Whether the links are sound: on any numbers, in lists of any length.
#[tactic(auto, unfolding(list::specs::Inspect::links_ok, list::specs::Inspect::numbers_ok))]
fn links_ok(head: Head, next: &[u32], prev: &[u32], stack: &[u32]) -> bool
    ensures { result ≡ links_ok head next.now prev.now stack.now }
{
    let n = head.slots;
    list::numbers_ok(head, next.len(), prev.len(), stack.len())
        && walk_links(next, prev, head.top.0, head.back.0, head.live, head.front.0)
        && stack_ok(next, prev, stack, head.depth, head.top, n)
        && list::bare_ok(next, prev, head.top, n)
}

// Whether as many of the 2n cells are full as slots are live, each with a number below n. Two counts stand for a branch in the loop: a number that is
// no slot's is in one of them only.
fn cells_full(cells: &[u32], n: u32, live: u32) -> bool
    requires { (n ≤ most_slots) × (2 * n ≤ length cells.now) }
    ensures { result ≡ counts live (tallied n (take (2 * n) cells.now)) }
{
    let mut full = 0;
    let mut known = 0;
    for cell in &cells[..2 * n as usize] {
        full += u32::from(*cell != Head::NONE);
        known += u32::from(*cell < n);
    }
    full == known && full == live
}

// Whether a slot is unused, or the search for its code ends at it. The home cell is tried first.
#[tactic(auto, using(crate::proofs::Used::home_below, crate::proofs::Used::home_stands), unfolding(crate::specs::Tests::used_stands))]
fn used_stands(cells: &[u32], codes: &[u64], next: &[u32], n: usize, s: u32) -> bool
    requires search_ends { Gapped (2 * n) cells.now codes.now }
    requires slot_reached { (s < length codes.now) × (s < length next.now) × (s < none_mark) }
    ensures { result ≡ used_stands (home_of n) (2 * n) cells.now codes.now next.now s }
{
    let i = s as usize;
    next[i] == Head::UNUSED
        || cells[crc::home(Code(codes[i]), n)] == s
        || table::stands(cells, codes, n, Slot(s))
}

// Whether each slot below top is unused, or the search for its code ends at it.
fn table_ok(cells: &[u32], codes: &[u64], next: &[u32], n: usize, top: u32) -> bool
    requires search_ends { Gapped (2 * n) cells.now codes.now }
    requires slots_reached { (top ≤ length codes.now) × (top ≤ length next.now) × (top < none_mark) }
    ensures { result ≡ all_from top 0 (used_stands (home_of n) (2 * n) cells.now codes.now next.now) }
{
    for slot in 0..top {
        if !used_stands(cells, codes, next, n, slot) {
            return false;
        }
    }
    true
}

// Whether the first n numbers are 0. Their bits are gathered, so that the loop has no branch.
fn all_zero(list: &[u64], n: usize) -> bool
    requires { n ≤ length list.now }
    ensures { result ≡ all_from n 0 (is_at 0 list.now) }
{
    let mut any = 0;
    for number in &list[..n] {
        any |= *number;
    }
    any == 0
}

// Whether the weights of n slots make a sum. Each comes off what is left, so that no sum wraps.
fn weights_ok(weights: &[u64], n: u32, weight: u64) -> bool
    requires { n ≤ length weights.now }
    ensures { result ≡ sum_ok weights.now n 0 weight }
{
    if weight == 0 {
        return all_zero(weights, n as usize);
    }
    let mut left = weight;
    for taken in &weights[..n as usize] {
        if left < *taken {
            return false;
        }
        left -= *taken;
    }
    left == 0
}

// Whether a slot's four fields are 0.
#[tactic(auto, unfolding(crate::specs::Tests::blank_at))]
fn blank_at(fields: &FieldsView<'_>, u: u32) -> bool
    requires { Writable u (viewed fields.now) }
    ensures { result ≡ blank_at (viewed fields.now) u }
{
    let i = u as usize;
    fields.codes[i] == 0 && fields.stamps[i] == 0 && fields.values[i] == 0 && fields.weights[i] == 0
}

// Whether each of the stack's slots is blank.
fn stack_blank(fields: &FieldsView<'_>, stack: &[u32], depth: u32) -> bool
    requires { Piled (viewed fields.now) stack.now depth }
    ensures { result ≡ all_from depth 0 (stack_blank (viewed fields.now) stack.now) }
{
    // A copy of the view: its lists need not be looked up anew at each slot.
    let lists = *fields;
    for slot in &stack[..depth as usize] {
        if !blank_at(&lists, *slot) {
            return false;
        }
    }
    true
}

// Whether each slot from top up to n is blank.
fn rest_blank(fields: &FieldsView<'_>, top: u32, n: u32) -> bool
    requires { (top ≤ n) × Reach n (viewed fields.now) }
    ensures { result ≡ all_from (n - top) top (blank_at (viewed fields.now)) }
{
    for slot in top..n {
        if !blank_at(fields, slot) {
            return false;
        }
    }
    true
}

// Whether head and lists describe a cache, whatever they hold. One walk over the links, one search for each slot in use, in the order of slots, some 6N plain
// steps besides, and no list of its own.
pub fn inspect(view: &View<'_>) -> bool
    ensures { Decides result (Sound (seen view.now)) }
{
    let head = view.head;
    let n = head.slots;
    let top = head.top.0;
    let next = view.links.next;
    head_ok(head)
        && store::has_room(n, view)
        && links_ok(head, next, view.links.prev, view.links.stack)
        && cells_full(view.cells, n, head.live)
        && table_ok(view.cells, view.fields.codes, next, n as usize, top)
        && weights_ok(view.fields.weights, n, head.weight)
        && stack_blank(&view.fields, view.links.stack, head.depth.0)
        && rest_blank(&view.fields, top, n)
}
