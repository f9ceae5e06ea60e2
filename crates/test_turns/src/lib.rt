// A fixed list of turns over the public calls: what each asks, how it is asked, and how it is told.
#![tactic(auto)]

ghost use Rattle.std.specs.Prelude.{◌≡◌, ◌<◌, ◌≤◌, IfNone};

use head::{Code, Command, Head, Place, Rule, Slot};
use std::fmt;

// A list that is lent, numbered as it is told.
#[derive(Debug, Clone, Copy, PartialEq, Eq)]
pub enum List {
    Codes = 1,
    Stamps,
    Values,
    Weights,
    Next,
    Prev,
    Stack,
    Cells,
    RowCodes,
    RowStamps,
    RowValues,
    RowWeights,
    // All four row lists.
    Rows,
}

impl List {
    // Whether what is said of this list is said of the other.
    fn covers(self, other: List) -> bool {
        let row = matches!(
            other,
            List::RowCodes | List::RowStamps | List::RowValues | List::RowWeights
        );
        self == other || self == List::Rows && row
    }
}

// A list of which only the first places are lent.
#[derive(Clone, Copy)]
pub struct Short {
    pub list: List,
    pub places: usize,
}

// A number of the head, and what stands in its place.
#[derive(Clone, Copy)]
pub enum Damage {
    Kind(u32),
    Capacity(u64),
    Slots(u32),
    Live(u32),
    Weight(u64),
    Front(u32),
    Back(u32),
    Top(u32),
    Depth(u32),
}

// What a turn asks for.
#[derive(Clone, Copy)]
pub enum Request {
    Open {
        // A number: 01 has a refusal for kinds that there are not, and a turn asks for one.
        kind: u32,
        capacity: u64,
        slots: u32,
    },
    Call(Command),
}

// A call, and what is unusual about it.
#[derive(Clone, Copy)]
pub struct Turn {
    pub request: Request,
    // Asked at the door, and not by the call's own name.
    pub door: bool,
    pub short: Option<Short>,
    pub damage: Option<Damage>,
}

impl Turn {
    fn usual(request: Request) -> Turn {
        Turn {
            request,
            door: false,
            short: None,
            damage: None,
        }
    }

    fn at_door(self) -> Turn {
        Turn { door: true, ..self }
    }

    fn lending(self, list: List, places: usize) -> Turn {
        let short = Some(Short { list, places });
        Turn { short, ..self }
    }

    fn harming(self, damage: Damage) -> Turn {
        let damage = Some(damage);
        Turn { damage, ..self }
    }

    // How many places of a list are lent, of so many.
    pub fn lends(self, list: List, places: usize) -> usize
        ensures { result ≤ places }
    {
        match self.short {
            Some(short) if short.list.covers(list) => places.min(short.places),
            _ => places,
        }
    }

    // The head as the turn lends it.
    pub fn harmed(self, head: Head) -> Head
        ensures { IfNone self.damage (result ≡ head) }
    {
        match self.damage {
            None => head,
            Some(Damage::Kind(kind)) => Head { kind, ..head },
            Some(Damage::Capacity(capacity)) => Head { capacity, ..head },
            Some(Damage::Slots(slots)) => Head { slots, ..head },
            Some(Damage::Live(live)) => Head { live, ..head },
            Some(Damage::Weight(weight)) => Head { weight, ..head },
            Some(Damage::Front(slot)) => Head {
                front: Slot(slot),
                ..head
            },
            Some(Damage::Back(slot)) => Head {
                back: Slot(slot),
                ..head
            },
            Some(Damage::Top(slot)) => Head {
                top: Slot(slot),
                ..head
            },
            Some(Damage::Depth(place)) => Head {
                depth: Place(place),
                ..head
            },
        }
    }
}

// ---- the turns

fn opening(kind: u32, capacity: u64, slots: u32) -> Turn {
    Turn::usual(Request::Open {
        kind,
        capacity,
        slots,
    })
}

fn asked(command: Command) -> Turn {
    Turn::usual(Request::Call(command))
}

fn get(code: u64) -> Turn {
    asked(Command::Get(Code(code)))
}

fn peek(code: u64) -> Turn {
    asked(Command::Peek(Code(code)))
}

fn contains(code: u64) -> Turn {
    asked(Command::Contains(Code(code)))
}

fn pop(code: u64) -> Turn {
    asked(Command::Pop(Code(code)))
}

fn get_mut(code: u64, value: u64) -> Turn {
    let code = Code(code);
    asked(Command::GetMut { code, value })
}

fn peek_mut(code: u64, value: u64) -> Turn {
    let code = Code(code);
    asked(Command::PeekMut { code, value })
}

fn put(code: u64, stamp: u32, value: u64) -> Turn {
    let code = Code(code);
    asked(Command::Put { code, stamp, value })
}

fn weighed(code: u64, stamp: u32, value: u64, weight: u64) -> Turn {
    let code = Code(code);
    asked(Command::PutWithWeight {
        code,
        stamp,
        value,
        weight,
    })
}

fn added(code: u64, stamp: u32, amount: u64) -> Turn {
    let code = Code(code);
    asked(Command::PutOrModify {
        code,
        stamp,
        amount,
    })
}

fn tried(code: u64, stamp: u32, amount: u64, ceiling: u64) -> Turn {
    let code = Code(code);
    asked(Command::TryPutOrModify {
        code,
        stamp,
        amount,
        ceiling,
    })
}

// A sweep by a rule's number: 01 has a refusal for rules that there are not, and turns ask for some.
fn sweep(number: u32, not: bool, low: u64, high: u64) -> Turn {
    asked(Command::Retain(Rule {
        number,
        not,
        low,
        high,
    }))
}

// A sweep that keeps what the rule names.
fn kept(number: u32, low: u64, high: u64) -> Turn {
    sweep(number, false, low, high)
}

// A sweep that keeps what the rule does not name.
fn swept(number: u32, low: u64, high: u64) -> Turn {
    sweep(number, true, low, high)
}

// Opening refused: kind, capacity, slots, and each list one short; then allowed.
#[inline(never)]
fn openings(place: usize) -> Turn
    requires { place < 23 }
{
    let turns = [
        asked(Command::Len),
        put(1, 7, 100),
        opening(2, 10, 4),
        opening(0, 0, 4),
        opening(0, 9223372036854775808, 4),
        opening(1, 10, 0),
        opening(1, 10, 4097),
        opening(0, 10, 9),
        opening(0, 10, 8).lending(List::Codes, 7),
        opening(0, 10, 8).lending(List::Stamps, 7),
        opening(0, 10, 8).lending(List::Values, 7),
        opening(0, 10, 8).lending(List::Weights, 7),
        opening(0, 10, 8).lending(List::Next, 7),
        opening(0, 10, 8).lending(List::Prev, 7),
        opening(0, 10, 8).lending(List::Stack, 7),
        opening(0, 10, 8).lending(List::Cells, 15),
        opening(0, 9223372036854775807, 8),
        asked(Command::Capacity),
        asked(Command::IsEmpty),
        asked(Command::Front),
        asked(Command::Back),
        opening(1, 1, 1),
        asked(Command::IsEmpty),
    ];
    turns[place]
}

// Examples A, B and C: what pushes out whom.
#[inline(never)]
fn orders(place: usize) -> Turn
    requires { place < 18 }
{
    let turns = [
        opening(0, 2, 2),
        put(1, 7, 100),
        put(2, 7, 200),
        put(3, 7, 300),
        asked(Command::List),
        opening(0, 2, 2),
        put(1, 7, 100),
        put(2, 7, 200),
        get(1),
        put(3, 7, 300),
        asked(Command::ListBack),
        opening(0, 2, 2),
        put(1, 7, 100),
        put(2, 7, 200),
        peek(1),
        put(3, 7, 300),
        contains(1),
        contains(2),
    ];
    turns[place]
}

// Examples D and K: a stamp kept and replaced, a ceiling passed over.
#[inline(never)]
fn stamps(place: usize) -> Turn
    requires { place < 17 }
{
    let turns = [
        opening(0, 3, 3),
        put(1, 7, 100),
        put(1, 8, 101),
        weighed(1, 8, 102, 0),
        weighed(2, 8, 102, 1),
        opening(0, 3, 3),
        put(1, 7, 40),
        put(2, 7, 50),
        tried(1, 9, 20, 50),
        peek(1),
        tried(1, 9, 10, 50),
        tried(3, 9, 51, 50),
        tried(3, 9, 50, 50).at_door(),
        added(4, 9, 5),
        added(3, 8, 18446744073709551615),
        tried(3, 8, 18446744073709551615, 18446744073709551615),
        asked(Command::List),
    ];
    turns[place]
}

// Examples E, F and G: weights.
#[inline(never)]
fn weights_run(place: usize) -> Turn
    requires { place < 20 }
{
    let turns = [
        opening(1, 10, 4),
        weighed(1, 7, 100, 3),
        weighed(2, 7, 200, 4),
        weighed(3, 7, 300, 1),
        asked(Command::Weight),
        asked(Command::Len),
        opening(1, 10, 4),
        weighed(1, 7, 100, 3),
        weighed(2, 7, 200, 4),
        weighed(1, 8, 101, 5),
        asked(Command::List),
        weighed(3, 8, 300, 10),
        weighed(4, 7, 400, 9),
        asked(Command::IsFull),
        pop(4),
        asked(Command::IsFull),
        opening(1, 1, 1),
        weighed(1, 7, 100, 1),
        weighed(1, 7, 100, 0),
        asked(Command::IsFull),
    ];
    turns[place]
}

// Examples H, I and J: resizing, with and without holes; and a shrink that leaves two slots free, of which the higher is taken first.
#[inline(never)]
fn sizes(place: usize) -> Turn
    requires { place < 30 }
{
    let turns = [
        opening(1, 10, 4),
        weighed(1, 7, 100, 3),
        weighed(2, 7, 200, 4),
        asked(Command::Resize(9)),
        asked(Command::Resize(8)),
        asked(Command::Capacity),
        opening(0, 3, 8),
        put(10, 7, 1),
        put(20, 7, 2),
        put(30, 7, 3),
        pop(10),
        asked(Command::Resize(5)),
        put(40, 7, 4),
        opening(0, 4, 4),
        put(10, 7, 1),
        put(20, 7, 2),
        put(30, 7, 3),
        pop(20),
        asked(Command::Resize(3)),
        put(50, 7, 5),
        opening(0, 6, 6),
        put(1, 7, 100),
        put(2, 7, 200),
        put(3, 7, 300),
        put(4, 7, 400),
        put(5, 7, 500),
        pop(2),
        pop(4),
        asked(Command::Resize(5)),
        put(6, 7, 600),
    ];
    turns[place]
}

// Examples L and M: every slot taken, and a sweep with too few rows.
#[inline(never)]
fn slots_run(place: usize) -> Turn
    requires { place < 18 }
{
    let turns = [
        opening(0, 5, 2),
        put(1, 7, 100),
        put(2, 7, 200),
        put(3, 7, 300),
        added(3, 7, 300),
        tried(3, 7, 300, 400),
        weighed(3, 7, 300, 0),
        put(2, 8, 201),
        weighed(1, 8, 101, 0),
        pop(2),
        put(3, 7, 300),
        swept(Rule::CODE, 0, 9).lending(List::Rows, 1),
        swept(Rule::CODE, 0, 9).lending(List::Rows, 2),
        opening(1, 20, 2),
        weighed(1, 7, 100, 9),
        weighed(2, 7, 200, 0),
        weighed(3, 7, 300, 0),
        weighed(3, 7, 300, 9),
    ];
    turns[place]
}

// Too few rows lent: by all four lists, and by each alone.
#[inline(never)]
fn rows_run(place: usize) -> Turn
    requires { place < 23 }
{
    let turns = [
        opening(0, 2, 4),
        put(1, 7, 100),
        put(2, 7, 200),
        put(3, 7, 300).lending(List::Rows, 0),
        added(3, 7, 300).lending(List::RowCodes, 0),
        tried(3, 7, 300, 300).lending(List::RowStamps, 0),
        weighed(3, 7, 300, 0).lending(List::RowValues, 0),
        put(3, 7, 300).lending(List::RowWeights, 1),
        asked(Command::List).lending(List::RowWeights, 1),
        asked(Command::ListBack).lending(List::RowCodes, 1),
        asked(Command::List).lending(List::Rows, 2),
        asked(Command::ListBack).lending(List::Rows, 2),
        asked(Command::Resize(1)).lending(List::Rows, 0),
        asked(Command::Resize(1)).lending(List::RowStamps, 1),
        opening(1, 10, 4),
        weighed(1, 7, 100, 2),
        weighed(2, 7, 200, 2),
        weighed(3, 7, 300, 1),
        weighed(4, 7, 400, 7).lending(List::Rows, 1),
        weighed(1, 8, 101, 7).lending(List::Rows, 1),
        weighed(4, 7, 400, 7).lending(List::Rows, 2),
        asked(Command::Resize(1)).lending(List::RowValues, 0),
        asked(Command::Resize(1)).lending(List::RowValues, 2),
    ];
    turns[place]
}

// The wrong kind, strange rules and capacities, too heavy: and that 8 comes before 3, 3 before 4, 4 before 5 and 6.
#[inline(never)]
fn kinds(place: usize) -> Turn
    requires { place < 27 }
{
    let turns = [
        opening(1, 10, 2),
        weighed(1, 7, 100, 2),
        weighed(2, 7, 200, 3),
        put(3, 7, 300),
        added(1, 7, 1),
        tried(1, 7, 1, 0),
        get_mut(1, 5),
        peek_mut(9, 5),
        asked(Command::FrontMut(5)),
        asked(Command::BackMut(5)),
        weighed(3, 7, 300, 10).lending(List::Rows, 0),
        weighed(1, 7, 300, 18446744073709551615),
        asked(Command::Resize(0)),
        asked(Command::Resize(9223372036854775808)),
        kept(4, 0, 0),
        swept(4294967295, 0, 0).at_door(),
        asked(Command::Resize(9223372036854775807)),
        weighed(3, 7, 300, 9223372036854775806),
        asked(Command::Capacity),
        asked(Command::Weight),
        opening(0, 2, 2),
        weighed(1, 7, 100, 1),
        weighed(1, 7, 100, 2),
        weighed(1, 7, 100, 0),
        asked(Command::FrontMut(5)),
        asked(Command::BackMut(6)),
        peek(1),
    ];
    turns[place]
}

// Setting values, and readers on both ends.
#[inline(never)]
fn setting(place: usize) -> Turn
    requires { place < 30 }
{
    let turns = [
        opening(0, 4, 4),
        asked(Command::FrontMut(1)),
        asked(Command::BackMut(1)),
        get_mut(1, 1),
        peek_mut(1, 1),
        asked(Command::PopFront),
        asked(Command::PopBack),
        pop(1),
        get(1),
        asked(Command::Clear),
        put(1, 7, 100),
        put(2, 8, 200),
        put(3, 9, 300),
        get_mut(1, 101),
        peek_mut(2, 201),
        asked(Command::FrontMut(102)),
        asked(Command::BackMut(203)),
        asked(Command::Front),
        asked(Command::Back),
        asked(Command::Len),
        asked(Command::IsFull),
        put(4, 6, 400),
        asked(Command::IsFull),
        asked(Command::PopFront),
        asked(Command::PopBack),
        pop(1).at_door(),
        asked(Command::List),
        asked(Command::Clear),
        asked(Command::Len),
        put(5, 5, 500),
    ];
    turns[place]
}

// Sweeps by each rule, kept and negated, and on a range that holds nothing.
#[inline(never)]
fn sweeps(place: usize) -> Turn
    requires { place < 20 }
{
    let turns = [
        opening(1, 40, 8),
        weighed(1, 5, 100, 1),
        weighed(2, 6, 200, 2),
        weighed(3, 7, 300, 3),
        weighed(4, 8, 400, 4),
        weighed(5, 9, 500, 5),
        kept(Rule::CODE, 0, 9),
        kept(Rule::CODE, 2, 9),
        swept(Rule::VALUE, 300, 300),
        asked(Command::ListBack).at_door(),
        kept(Rule::STAMP, 8, 0),
        weighed(6, 1, 600, 6),
        kept(Rule::WEIGHT, 0, 5),
        swept(Rule::STAMP, 9, 0).at_door(),
        swept(Rule::WEIGHT, 0, 9),
        asked(Command::IsEmpty),
        weighed(7, 7, 700, 7),
        weighed(8, 8, 800, 8),
        kept(Rule::VALUE, 900, 100),
        asked(Command::Weight),
    ];
    turns[place]
}

// Calls at the door, as any command: the same turns as some above.
#[inline(never)]
fn doors(place: usize) -> Turn
    requires { place < 26 }
{
    let turns = [
        opening(0, 3, 4),
        put(1, 7, 100).at_door(),
        weighed(2, 7, 200, 0).at_door(),
        added(3, 7, 300).at_door(),
        tried(1, 7, 1, 100).at_door(),
        asked(Command::Len).at_door(),
        asked(Command::Capacity).at_door(),
        asked(Command::Weight).at_door(),
        asked(Command::IsEmpty).at_door(),
        asked(Command::IsFull).at_door(),
        asked(Command::Front).at_door(),
        asked(Command::Back).at_door(),
        peek(2).at_door(),
        contains(9).at_door(),
        get(2).at_door(),
        get_mut(3, 301).at_door(),
        peek_mut(2, 201).at_door(),
        asked(Command::FrontMut(302)).at_door(),
        asked(Command::BackMut(101)).at_door(),
        put(4, 7, 400).at_door().lending(List::Rows, 0),
        put(4, 7, 400).at_door(),
        asked(Command::List).at_door(),
        asked(Command::Resize(2)).at_door(),
        asked(Command::PopFront).at_door(),
        asked(Command::PopBack).at_door(),
        asked(Command::Clear).at_door(),
    ];
    turns[place]
}

// Heads damaged, one number at a time, and lists too short: all refused, and the cache goes on.
#[inline(never)]
fn damages(place: usize) -> Turn
    requires { place < 34 }
{
    let turns = [
        opening(1, 20, 4),
        weighed(1, 7, 100, 2),
        weighed(2, 7, 200, 3),
        weighed(3, 7, 300, 1),
        pop(2),
        asked(Command::Len).harming(Damage::Kind(2)),
        get(1).harming(Damage::Capacity(0)),
        put(1, 7, 1).harming(Damage::Slots(0)),
        weighed(4, 7, 400, 1).harming(Damage::Live(3)),
        asked(Command::Weight).harming(Damage::Weight(4)),
        pop(1).harming(Damage::Front(1)),
        asked(Command::PopBack).harming(Damage::Back(2)),
        asked(Command::Clear).harming(Damage::Top(2)),
        asked(Command::Resize(0)).harming(Damage::Depth(0)),
        asked(Command::List).harming(Damage::Live(1)),
        kept(9, 0, 0).harming(Damage::Capacity(9223372036854775808)),
        get_mut(1, 1).harming(Damage::Slots(4097)),
        peek(1).lending(List::Codes, 3),
        contains(1).lending(List::Stamps, 3),
        asked(Command::IsFull).lending(List::Values, 3),
        asked(Command::Front).lending(List::Weights, 0),
        asked(Command::Back).lending(List::Next, 3),
        added(1, 7, 1).lending(List::Prev, 3),
        tried(1, 7, 1, 0).lending(List::Stack, 3),
        asked(Command::Capacity).lending(List::Cells, 7),
        asked(Command::IsEmpty).lending(List::Cells, 8),
        peek_mut(1, 1).lending(List::Codes, 0),
        asked(Command::FrontMut(1)).harming(Damage::Kind(7)),
        asked(Command::BackMut(1)).harming(Damage::Top(5)),
        asked(Command::PopFront).lending(List::Weights, 3),
        asked(Command::ListBack).lending(List::Stack, 0),
        asked(Command::List),
        get(1),
        weighed(5, 7, 500, 1),
    ];
    turns[place]
}

// A weighed cache of three and four entries: both ends, looked at and taken, codes sought, listings either way, and all cleared.
#[inline(never)]
fn weighed_ends(place: usize) -> Turn
    requires { place < 32 }
{
    let turns = [
        opening(1, 30, 5),
        weighed(1, 5, 100, 4),
        weighed(2, 6, 200, 0),
        weighed(3, 7, 300, 6),
        weighed(4, 8, 400, 2),
        asked(Command::Front),
        asked(Command::Back),
        peek(2),
        peek(9),
        contains(1),
        contains(5),
        asked(Command::List),
        asked(Command::ListBack),
        get(1),
        asked(Command::ListBack),
        asked(Command::PopBack),
        asked(Command::List).at_door(),
        asked(Command::PopFront),
        weighed(5, 9, 500, 3),
        asked(Command::Front),
        asked(Command::Back),
        weighed(6, 1, 600, 18),
        asked(Command::List),
        asked(Command::PopFront).at_door(),
        weighed(7, 2, 700, 1),
        asked(Command::PopBack).at_door(),
        weighed(8, 3, 800, 0),
        peek(7),
        contains(4),
        asked(Command::ListBack).at_door(),
        asked(Command::Clear),
        asked(Command::List),
    ];
    turns[place]
}

// How many turns there are.
pub const TURNS: u32 = 318;

// Turn i, scene by scene; a listing past the last one. A function pays at entry for all that it holds: so each scene is one of its own, out of line, and only the one
// that has the turn is made.
pub fn turn_at(i: u32) -> Turn {
    let i = i as usize;
    match i {
        0..=22 => openings(i),
        23..=40 => orders(i - 23),
        41..=57 => stamps(i - 41),
        58..=77 => weights_run(i - 58),
        78..=107 => sizes(i - 78),
        108..=125 => slots_run(i - 108),
        126..=148 => rows_run(i - 126),
        149..=175 => kinds(i - 149),
        176..=205 => setting(i - 176),
        206..=225 => sweeps(i - 206),
        226..=251 => doors(i - 226),
        252..=285 => damages(i - 252),
        286..=317 => weighed_ends(i - 286),
        _ => asked(Command::List),
    }
}

// ---- how a turn is told

impl fmt::Display for Damage {
    fn fmt<W: fmt::Write>(&self, f: &mut fmt::Formatter<W>) -> fmt::Result {
        match *self {
            Damage::Kind(n) => write!(f, "head 1 set {n}"),
            Damage::Capacity(n) => write!(f, "head 2 set {n}"),
            Damage::Slots(n) => write!(f, "head 3 set {n}"),
            Damage::Live(n) => write!(f, "head 4 set {n}"),
            Damage::Weight(n) => write!(f, "head 5 set {n}"),
            Damage::Front(n) => write!(f, "head 6 set {n}"),
            Damage::Back(n) => write!(f, "head 7 set {n}"),
            Damage::Top(n) => write!(f, "head 8 set {n}"),
            Damage::Depth(n) => write!(f, "head 9 set {n}"),
        }
    }
}

impl fmt::Display for Short {
    fn fmt<W: fmt::Write>(&self, f: &mut fmt::Formatter<W>) -> fmt::Result {
        let list = self.list as u8;
        let places = self.places;
        write!(f, "list {list} lent {places}")
    }
}

impl fmt::Display for Request {
    fn fmt<W: fmt::Write>(&self, f: &mut fmt::Formatter<W>) -> fmt::Result {
        match *self {
            Request::Open {
                kind,
                capacity,
                slots,
            } => write!(f, "open {kind} {capacity} {slots}"),
            Request::Call(command) => tell(f, command),
        }
    }
}

// A call's word and its numbers.
fn tell<W: fmt::Write>(f: &mut fmt::Formatter<W>, command: Command) -> fmt::Result {
    match command {
        Command::Len => f.write_str("len"),
        Command::Capacity => f.write_str("capacity"),
        Command::Weight => f.write_str("weight"),
        Command::IsEmpty => f.write_str("is_empty"),
        Command::IsFull => f.write_str("is_full"),
        Command::Front => f.write_str("front"),
        Command::Back => f.write_str("back"),
        Command::Peek(code) => write!(f, "peek {}", code.0),
        Command::Contains(code) => write!(f, "contains {}", code.0),
        Command::List => f.write_str("list"),
        Command::ListBack => f.write_str("list_back"),
        Command::Get(code) => write!(f, "get {}", code.0),
        Command::Pop(code) => write!(f, "pop {}", code.0),
        Command::PopFront => f.write_str("pop_front"),
        Command::PopBack => f.write_str("pop_back"),
        Command::Put { code, stamp, value } => write!(f, "put {} {stamp} {value}", code.0),
        Command::PutWithWeight {
            code,
            stamp,
            value,
            weight,
        } => write!(f, "putw {} {stamp} {value} {weight}", code.0),
        Command::Clear => f.write_str("clear"),
        Command::Retain(rule) => {
            let not = u8::from(rule.not);
            write!(f, "retain {not} {} {} {}", rule.number, rule.low, rule.high)
        }
        Command::Resize(capacity) => write!(f, "resize {capacity}"),
        Command::PutOrModify {
            code,
            stamp,
            amount,
        } => write!(f, "put_or_modify {} {stamp} {amount}", code.0),
        Command::TryPutOrModify {
            code,
            stamp,
            amount,
            ceiling,
        } => write!(f, "try_put_or_modify {} {stamp} {amount} {ceiling}", code.0),
        Command::GetMut { code, value } => write!(f, "get_mut {} {value}", code.0),
        Command::PeekMut { code, value } => write!(f, "peek_mut {} {value}", code.0),
        Command::FrontMut(value) => write!(f, "front_mut {value}"),
        Command::BackMut(value) => write!(f, "back_mut {value}"),
    }
}

// What it asks, and what is unusual about it.
impl fmt::Display for Turn {
    fn fmt<W: fmt::Write>(&self, f: &mut fmt::Formatter<W>) -> fmt::Result {
        let request = self.request;
        write!(f, "{request}")?;
        if self.door {
            f.write_str(" door")?;
        }
        if let Some(short) = self.short {
            write!(f, " {short}")?;
        }
        if let Some(damage) = self.damage {
            write!(f, " {damage}")?;
        }
        Ok(())
    }
}
