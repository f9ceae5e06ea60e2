// Plays the turns of crate `test_turns` at the doors, and writes a line for each: the call, what it said and handed out, and how the cache stands then.
#![tactic(auto)]

use head::{Answer, Code, Command, Form, Head, Row};
use script_read::Line;
use state::{Fields, FieldsView, Links, LinksView, State, View};
use std::{fmt, io};
use test_turns::{List, Request, Turn};

// ---- the line

// An entry as it is told.
#[derive(Clone, Copy)]
struct Entry(Row);

impl fmt::Display for Entry {
    fn fmt<W: fmt::Write>(&self, f: &mut fmt::Formatter<W>) -> fmt::Result {
        let row = self.0;
        write!(
            f,
            "{} {} {} {}",
            row.code.0, row.stamp, row.value, row.weight
        )
    }
}

// An answer as it is told.
#[derive(Clone, Copy)]
struct Told(Answer);

impl fmt::Display for Told {
    fn fmt<W: fmt::Write>(&self, f: &mut fmt::Formatter<W>) -> fmt::Result {
        match self.0 {
            Answer::No(refusal) => write!(f, "no {}", refusal.number()),
            Answer::New { rows } => write!(f, "new {rows}"),
            Answer::Was { value, rows } => write!(f, "was {value} {rows}"),
            Answer::Is(value) => write!(f, "is {value}"),
            Answer::Now { value, new, rows } => write!(f, "now {value} {} {rows}", u8::from(new)),
            Answer::Absent => f.write_str("absent"),
            Answer::Entry(row) => write!(f, "entry {}", Entry(row)),
            Answer::Done { rows } => write!(f, "done {rows}"),
            Answer::Count(n) => write!(f, "count {n}"),
            Answer::Flag(on) => write!(f, "flag {}", u8::from(on)),
        }
    }
}

// The entry, or the row, at a place of the four lists; in each 0 past its end. They are read here: what the library wrote and read exchanged would not show.
fn entry_at(fields: &FieldsView<'_>, place: u32) -> Entry {
    let i = place as usize;
    Entry(Row {
        code: Code(fields.codes.get(i).copied().unwrap_or(0)),
        stamp: fields.stamps.get(i).copied().unwrap_or(0),
        value: fields.values.get(i).copied().unwrap_or(0),
        weight: fields.weights.get(i).copied().unwrap_or(0),
    })
}

// Weight, top, live, the entries front to back, each behind its slot, the depth of the stack and the slots on it, bottom first.
fn print_state(rt: &impl Print, view: View<'_>) -> io::Result<()> {
    let head = view.head;
    print!(rt; " = {} {} {}", head.weight, head.top.0, head.live)?;
    let mut slot = head.front.0;
    for _ in 0..head.live {
        print!(rt; " {slot} {}", entry_at(&view.fields, slot))?;
        slot = view.links.next.get(slot as usize).copied().unwrap_or(0);
    }
    print!(rt; " {}", head.depth.0)?;
    for slot in view.links.stack.iter().take(head.depth.0 as usize) {
        print!(rt; " {slot}")?;
    }
    println!(rt)
}

// ---- the turns

// The line of the script that asks for it.
fn line_of(request: Request) -> Line {
    match request {
        Request::Open {
            kind,
            capacity,
            slots,
        } => Line::Open {
            kind,
            capacity,
            slots,
        },
        Request::Call(command) => Line::Call(command),
    }
}

// Makes a call as the public call of its name does: what reads is lent the lists for reading, and only what hands out rows is lent row lists.
fn by_form(state: &mut State<'_>, rows: &mut Fields<'_>, command: Command) -> Answer {
    match command.form() {
        Form::Reading => door::read(&state.view(), command),
        Form::Listing => door::tell(&state.view(), rows, command),
        Form::Acting => door::serve(state, command),
        Form::Handing => door::call(state, rows, command),
    }
}

// Plays a turn by the call's form, or, an opening and what is asked at the door, as a line of the script.
fn act(t: Turn, state: &mut State<'_>, rows: &mut Fields<'_>) -> Answer {
    match t.request {
        Request::Call(command) if !t.door => by_form(state, rows, command),
        request => script_turn::carry_out(state, rows, Some(line_of(request))),
    }
}

// As much of a list as the turn lends.
fn lent<T>(t: Turn, list: List, places: &mut [T]) -> &mut [T] {
    let n = t.lends(list, places.len());
    &mut places[..n]
}

// Every turn with its line, in lists that hold 7 everywhere at the start.
fn main(rt: HostRuntime) -> io::Result<()> {
    let mut codes = [7u64; 8];
    let mut stamps = [7u32; 8];
    let mut values = [7u64; 8];
    let mut weights = [7u64; 8];
    let mut next = [7u32; 8];
    let mut prev = [7u32; 8];
    let mut stack = [7u32; 8];
    let mut cells = [7u32; 16];
    let mut row_codes = [7u64; 8];
    let mut row_stamps = [7u32; 8];
    let mut row_values = [7u64; 8];
    let mut row_weights = [7u64; 8];
    let mut head = Head::fresh(Head::PLAIN, 8, 8);
    for i in 0..test_turns::TURNS {
        let t = test_turns::turn_at(i);
        let hurt = t.harmed(head);
        let mut state = State {
            head: hurt,
            fields: Fields {
                codes: lent(t, List::Codes, &mut codes),
                stamps: lent(t, List::Stamps, &mut stamps),
                values: lent(t, List::Values, &mut values),
                weights: lent(t, List::Weights, &mut weights),
            },
            links: Links {
                next: lent(t, List::Next, &mut next),
                prev: lent(t, List::Prev, &mut prev),
                stack: lent(t, List::Stack, &mut stack),
            },
            cells: lent(t, List::Cells, &mut cells),
        };
        let mut rows = Fields {
            codes: lent(t, List::RowCodes, &mut row_codes),
            stamps: lent(t, List::RowStamps, &mut row_stamps),
            values: lent(t, List::RowValues, &mut row_values),
            weights: lent(t, List::RowWeights, &mut row_weights),
        };
        let answer = act(t, &mut state, &mut rows);
        // A damaged head that came back as it was lent is mended.
        if state.head != hurt {
            head = state.head;
        }
        print!(rt; "{i} {t} > {}", Told(answer))?;
        // The whole lists, whatever the turn lent of them.
        let handed = FieldsView {
            codes: &row_codes,
            stamps: &row_stamps,
            values: &row_values,
            weights: &row_weights,
        };
        for place in 0..answer.rows() {
            print!(rt; " row {}", entry_at(&handed, place))?;
        }
        let whole = View {
            head,
            fields: FieldsView {
                codes: &codes,
                stamps: &stamps,
                values: &values,
                weights: &weights,
            },
            links: LinksView {
                next: &next,
                prev: &prev,
                stack: &stack,
            },
            cells: &cells,
        };
        print_state(&rt, whole)?;
    }
    Ok(())
}
