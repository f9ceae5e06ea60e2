// What a caller lends for a call: a head with the eight lists of a cache, and four lists that take rows. Any number in them may be damaged, and a list may be
// too short.
#![tactic(auto)]

ghost use Rattle.std.specs.Prelude.{◌≡◌, []};
ghost use Rattle.state.specs.State.{lent, seen, held, viewed, state, SameFields};
ghost use Rattle.state.specs.Entries.{shortest, entry_in, Writable, Wrote};

use head::{Code, Head, Row};

// A list for each number of an entry: 01 asks for lists of plain numbers, side by side. The entry in slot s, or row s of those that a call hands out, is number s of
// each.
#[derive(Drop)]
pub struct Fields<'a> {
    pub codes: &'a mut [u64],
    pub stamps: &'a mut [u32],
    pub values: &'a mut [u64],
    pub weights: &'a mut [u64],
}

// The same, only read: one type over `&` and `&mut` lists there is not.
#[derive(Clone, Copy)]
pub struct FieldsView<'a> {
    pub codes: &'a [u64],
    pub stamps: &'a [u32],
    pub values: &'a [u64],
    pub weights: &'a [u64],
}

// The recency list and the free slots.
#[derive(Drop)]
pub struct Links<'a> {
    // The slot behind each slot in the order, and the one ahead of it. A slot on the free stack has its place there in `prev`.
    pub next: &'a mut [u32],
    pub prev: &'a mut [u32],
    // The free stack, its bottom first.
    pub stack: &'a mut [u32],
}

// The same, only read.
#[derive(Clone, Copy)]
pub struct LinksView<'a> {
    pub next: &'a [u32],
    pub prev: &'a [u32],
    pub stack: &'a [u32],
}

// The lookup table by itself, as `exchange` takes it: a struct can be lent, its one list could not be given away.
#[derive(Drop)]
pub struct Table<'a> {
    pub cells: &'a mut [u32],
}

// A head, and lists that a call may change.
#[derive(Drop)]
pub struct State<'a> {
    pub head: Head,
    // The entries, 0 in each where a slot has none.
    pub fields: Fields<'a>,
    pub links: Links<'a>,
    // The lookup table.
    pub cells: &'a mut [u32],
}

// The same, only read.
#[derive(Clone, Copy)]
pub struct View<'a> {
    pub head: Head,
    pub fields: FieldsView<'a>,
    pub links: LinksView<'a>,
    pub cells: &'a [u32],
}

impl Fields<'_> {
    pub fn view(&self) -> FieldsView<'_>
        ensures { viewed result ≡ held self.now }
    {
        FieldsView {
            codes: self.codes,
            stamps: self.stamps,
            values: self.values,
            weights: self.weights,
        }
    }

    pub fn room(&self) -> usize
        ensures { result ≡ shortest (held self.now) }
    {
        self.view().room()
    }

    // Writes an entry, or a row, at a place of the four lists.
    pub fn write(&mut self, at: u32, row: Row)
        requires { Writable at (held self.old) }
        ensures lists { SameFields self.old self.new }
        ensures wrote { Wrote at row (held self.old) (held self.new) }
    {
        let i = at as usize;
        self.codes[i] = row.code.0;
        self.stamps[i] = row.stamp;
        self.values[i] = row.value;
        self.weights[i] = row.weight;
    }
}

impl FieldsView<'_> {
    // How many rows there is room for: as many as the shortest list holds.
    pub fn room(&self) -> usize
        ensures { result ≡ shortest (viewed self.now) }
    {
        self.codes.len().min(
            self.stamps
                .len()
                .min(self.values.len().min(self.weights.len())),
        )
    }

    // The entry, or the row, at a place of the four lists.
    pub fn read(&self, at: u32) -> Row
        requires { Writable at (viewed self.now) }
        ensures { result ≡ entry_in (viewed self.now) at }
    {
        let i = at as usize;
        Row {
            code: Code(self.codes[i]),
            stamp: self.stamps[i],
            value: self.values[i],
            weight: self.weights[i],
        }
    }
}

impl Links<'_> {
    pub fn view(&self) -> LinksView<'_>
        ensures { (result.next.now ≡ self.now.next.now) × (result.prev.now ≡ self.now.prev.now) × (result.stack.now ≡ self.now.stack.now) }
    {
        LinksView {
            next: self.next,
            prev: self.prev,
            stack: self.stack,
        }
    }
}

impl<'a> State<'a> {
    // A state with a head and no lists.
    pub fn bare(head: Head) -> State<'a>
        ensures head { result.head ≡ head }
        ensures lists { lent result ≡ state head [] [] [] [] [] [] [] [] }
    {
        State {
            head,
            fields: Fields {
                codes: &mut [],
                stamps: &mut [],
                values: &mut [],
                weights: &mut [],
            },
            links: Links {
                next: &mut [],
                prev: &mut [],
                stack: &mut [],
            },
            cells: &mut [],
        }
    }

    // Exchanges its lists with those of three parts. A caller that has to say what its own `&mut` lists become gives them to a bare state so, before a call, and takes
    // them back after it: of lists lent to a struct within a struct nothing is known in the end.
    pub fn exchange(
        &mut self,
        fields: &mut Fields<'a>,
        links: &mut Links<'a>,
        table: &mut Table<'a>,
    )
        ensures head { self.new.head ≡ self.old.head }
        ensures given { (self.new.fields ≡ fields.old) × (self.new.links ≡ links.old) × (self.new.cells ≡ table.old.cells) }
        ensures taken { (fields.new ≡ self.old.fields) × (links.new ≡ self.old.links) × (table.new.cells ≡ self.old.cells) }
    {
        std::mem::swap(&mut self.fields, fields);
        std::mem::swap(&mut self.links, links);
        std::mem::swap(&mut self.cells, &mut table.cells);
    }

    pub fn view(&self) -> View<'_>
        ensures { seen result ≡ lent self.now }
    {
        View {
            head: self.head,
            fields: self.fields.view(),
            links: self.links.view(),
            cells: self.cells,
        }
    }
}
