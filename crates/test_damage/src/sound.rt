// The plain check of soundness: the paper's section on slots, free stack and table, read clause by clause, slowly.
use crate::sheet::{List, MOST_CAPACITY, MOST_SLOTS, NONE, PLACES, State, UNUSED, at, first};
use head::Code;

// What a list holds for a slot, 0 past its end.
fn of<T: Copy + Default>(list: &[T], slot: u32) -> T {
    at(list, slot as usize)
}

// How often a number stands in a list.
fn times(list: &[u32], x: u32) -> usize {
    list.iter().filter(|y| **y == x).count()
}

impl State {
    // Kind, capacity and slots as opening allows.
    fn opening_ok(&self) -> bool {
        let head = self.head;
        head.kind <= 1
            && 1 <= head.capacity
            && head.capacity <= MOST_CAPACITY
            && 1 <= head.slots
            && head.slots <= MOST_SLOTS
    }

    // Whether each list is lent as long as the slots need.
    fn long_ok(&self) -> bool {
        let slots = self.head.slots;
        List::ALL
            .iter()
            .all(|list| list.needed(slots) <= self.lent(*list))
    }

    // The totals within capacity and slots.
    fn totals_ok(&self) -> bool {
        let head = self.head;
        head.weight <= head.capacity
            && u64::from(head.live) <= head.capacity - head.weight
            && head.live <= head.slots
            && head.depth.0 <= head.slots
            && head.top.0 <= head.slots
    }

    // The slots that so many steps from the front on meet, as many as a list has places.
    fn order(&self) -> [u32; PLACES] {
        let mut order = [NONE; PLACES];
        let mut slot = self.head.front.0;
        for met in &mut order {
            *met = slot;
            slot = of(&self.next, slot);
        }
        order
    }

    // Whether it is sound.
    pub fn sound(&self) -> bool {
        if !(self.opening_ok() && self.long_ok() && self.totals_ok()) {
            return false;
        }
        let order = self.order();
        let slots = self.head.slots;
        let links = Links {
            state: self,
            order: first(&order, self.head.live as usize),
            stack: first(&self.stack, List::Stack.needed(slots)),
            waiting: first(&self.stack, self.head.depth.0 as usize),
            cells: first(&self.cells, List::Cells.needed(slots)),
        };
        links.order_ok()
            && links.stack_ok()
            && (0..slots).all(|slot| links.slot_ok(slot))
            && links.cells_ok()
            && links.weight() == self.head.weight
    }
}

// A state in its bounds, with its slots as they are linked.
#[derive(Clone, Copy)]
struct Links<'a> {
    state: &'a State,
    // The slots that as many steps from the front on meet as there are entries.
    order: &'a [u32],
    // The places of the stack and the cells that the slots need, and the stack up to its depth.
    stack: &'a [u32],
    waiting: &'a [u32],
    cells: &'a [u32],
}

impl Links<'_> {
    // Each slot of the order is below top and met once, and linked to the one before it; none stands at both ends.
    fn order_ok(&self) -> bool {
        let head = self.state.head;
        let mut last = NONE;
        let mut slot = head.front.0;
        for met in self.order {
            if head.top.0 <= *met
                || of(&self.state.prev, *met) != last
                || times(self.order, *met) != 1
            {
                return false;
            }
            last = *met;
            slot = of(&self.state.next, *met);
        }
        slot == NONE && last == head.back.0
    }

    // Slots below top stand on the stack, and none past its depth.
    fn stack_ok(&self) -> bool {
        let top = self.state.head.top.0;
        self.waiting.iter().all(|slot| *slot < top)
            && self
                .stack
                .iter()
                .skip(self.waiting.len())
                .all(|slot| *slot == NONE)
    }

    // A slot below top stands once in the order or on the stack, another in neither.
    fn slot_ok(&self, slot: u32) -> bool {
        let used = slot < self.state.head.top.0;
        match (times(self.order, slot), times(self.waiting, slot)) {
            (1, 0) => used && self.entry_ok(slot),
            (0, 1) => used && self.blank_ok(slot) && self.knows_place(slot),
            (0, 0) => !used && self.blank_ok(slot) && of(&self.state.prev, slot) == NONE,
            _ => false,
        }
    }

    // A slot in the order: no weight if plain, its code there once, and one cell that a search from home comes to.
    fn entry_ok(&self, slot: u32) -> bool {
        let code = of(&self.state.codes, slot);
        (self.state.head.kind == 1 || of(&self.state.weights, slot) == 0)
            && self.coded(code) == 1
            && times(self.cells, slot) == 1
            && self.reached(code, slot)
    }

    // How many slots of the order have a code.
    fn coded(&self, code: u64) -> usize {
        let codes = &self.state.codes;
        self.order
            .iter()
            .filter(|slot| of(codes, **slot) == code)
            .count()
    }

    // Whether a search from a code's home on, around the end, comes to a slot before an empty cell.
    fn reached(&self, code: u64, slot: u32) -> bool {
        let home = self.home(code);
        (home..self.cells.len())
            .chain(0..home)
            .map(|i| at(self.cells, i))
            .take_while(|cell| *cell != NONE)
            .any(|cell| cell == slot)
    }

    // The home cell of a code. In its bounds a state has 1 to 16 slots.
    fn home(&self, code: u64) -> usize {
        let n = self.state.head.slots as usize;
        if n == 0 || PLACES < n {
            return 0;
        }
        crc::home(Code(code), n)
    }

    // A slot not in the order holds zeros and the mark.
    fn blank_ok(&self, slot: u32) -> bool {
        let state = self.state;
        of(&state.codes, slot) == 0
            && of(&state.stamps, slot) == 0
            && of(&state.values, slot) == 0
            && of(&state.weights, slot) == 0
            && of(&state.next, slot) == UNUSED
    }

    // A slot on the stack knows its place there.
    fn knows_place(&self, slot: u32) -> bool {
        let place = of(&self.state.prev, slot);
        matches!(self.waiting.get(place as usize), Some(x) if *x == slot)
    }

    // A cell holds none, or a slot of the order.
    fn cells_ok(&self) -> bool {
        self.cells
            .iter()
            .all(|cell| *cell == NONE || times(self.order, *cell) == 1)
    }

    // What the slots of the order weigh together, or the largest number where that does not fit.
    fn weight(&self) -> u64 {
        let weights = &self.state.weights;
        self.order.iter().fold(0, |sum: u64, slot| {
            sum.saturating_add(of(weights, *slot))
        })
    }
}
