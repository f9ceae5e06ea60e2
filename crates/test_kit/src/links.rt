// The list's links by value, each operation on links that are inspected first. Where they are not sound, or it does not fit, nothing is done.
ghost use Rattle.std.specs.Prelude.{◌≡◌, true};
ghost use Rattle.list.specs.Inspect.{Inspected};
ghost use Rattle.list.specs.Promises.{Held, Room};

use head::{Head, Slot};
use state::LinksView;

// The list: its head and its links.
#[derive(Debug, Clone, Copy, PartialEq, Eq)]
pub struct Links {
    pub head: Head,
    pub next: [u32; 16],
    pub prev: [u32; 16],
    pub stack: [u32; 16],
}

impl Links {
    // The links of a head that holds nothing.
    pub fn bare(head: Head) -> Links {
        Links {
            head,
            next: [Head::UNUSED; 16],
            prev: [Head::NONE; 16],
            stack: [Head::NONE; 16],
        }
    }

    // The links, lent to be changed.
    fn lent(&mut self) -> state::Links<'_> {
        let Links {
            next,
            prev,
            stack,
            ..
        } = self;
        state::Links { next, prev, stack }
    }

    // A slot comes to the front.
    pub fn push(&mut self) {
        let head = self.head;
        let mut links = self.lent();
        if head.live < head.slots && is_sound(head, &links.view()) {
            self.head = list::push_front(head, &mut links).head;
        }
    }

    // A slot leaves, and comes on the stack.
    pub fn remove(&mut self, slot: u64) {
        let slot = Slot(narrow(slot));
        let head = self.head;
        let mut links = self.lent();
        if holds(head, &links.view(), slot) {
            self.head = list::remove(head, &mut links, slot);
        }
    }

    // A slot of the list comes to the front.
    pub fn raise(&mut self, slot: u64) {
        let slot = Slot(narrow(slot));
        let head = self.head;
        let mut links = self.lent();
        if holds(head, &links.view(), slot) {
            self.head = list::move_front(head, &mut links, slot);
        }
    }

    // So many slots leave by the back.
    pub fn evict(&mut self, count: u64) {
        let count = narrow(count);
        let head = self.head;
        let mut links = self.lent();
        if count <= head.live && is_sound(head, &links.view()) {
            self.head = list::evict(head, &mut links, count);
        }
    }

    // Every slot leaves.
    pub fn clear(&mut self) {
        let head = self.head;
        let mut links = self.lent();
        if is_sound(head, &links.view()) {
            self.head = list::clear(head, &mut links);
        }
    }
}

// The low 32 bits: slots and counts come as numbers of 64, so that a caller need not cut them.
fn narrow(x: u64) -> u32 {
    (x % 4294967296) as u32
}

fn is_sound(head: Head, links: &LinksView<'_>) -> bool
    ensures { Inspected head links.now.next.now links.now.prev.now links.now.stack.now result }
{
    list::inspect_links(head, links.next, links.prev, links.stack)
}

// Whether they are sound and a slot is in use.
fn holds(head: Head, links: &LinksView<'_>, slot: Slot) -> bool
    ensures held { result ≡ true → Held head links.now.next.now links.now.prev.now links.now.stack.now slot.0 }
    ensures room { result ≡ true → Room head links.now.next.now links.now.prev.now slot.0 }
{
    if !is_sound(head, links) || head.slots <= slot.0 {
        return false;
    }
    list::at(links.next, slot.0) != Head::UNUSED
}
