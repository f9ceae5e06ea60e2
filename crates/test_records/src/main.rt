// Makes calls that hand out rows, each twice on the same state, and writes the rows of both: from the four row lists, and from records.
#![tactic(auto)]

ghost use Rattle.state.specs.State.{held, lent, seen};
ghost use Rattle.test_records.specs.Eight.{Lists, ListsTold};

use head::{Answer, Code, Command, Head, Row, Rule};
use state::{Fields, Links, State, View};
use std::{fmt, io};

// The rows of a call, in eight records that are blank at first.
fn recorded(state: &mut State<'_>, rows: &mut Fields<'_>, command: Command) -> [Row; 8]
    ensures { Lists command (lent state.old) (held rows.old) result }
{
    let mut list = [Row::BLANK; 8];
    records::call(state, rows, &mut list, command);
    list
}

// The same of a listing.
fn listed(view: &View<'_>, rows: &mut Fields<'_>, command: Command) -> [Row; 8]
    ensures { ListsTold command (seen view.now) (held rows.old) result }
{
    let mut list = [Row::BLANK; 8];
    records::tell(view, rows, &mut list, command);
    list
}

fn put(code: u64) -> Command {
    Command::Put {
        code: Code(code),
        stamp: 7,
        value: 100,
    }
}

// The calls of the run: ten puts, each call that hands out rows, one with more rows than the records hold, one over its ceiling.
fn commands() -> [Command; 20] {
    [
        put(0),
        put(1),
        put(2),
        put(3),
        put(4),
        put(5),
        put(6),
        put(7),
        put(8),
        put(9),
        Command::PutOrModify {
            code: Code(10),
            stamp: 8,
            amount: 60,
        },
        Command::TryPutOrModify {
            code: Code(11),
            stamp: 9,
            amount: 5,
            ceiling: 1000,
        },
        Command::PutWithWeight {
            code: Code(12),
            stamp: 10,
            value: 33,
            weight: 0,
        },
        Command::List,
        Command::Retain(Rule::value(60, 100)),
        Command::List,
        Command::ListBack,
        Command::Resize(3),
        Command::TryPutOrModify {
            code: Code(11),
            stamp: 9,
            amount: 5,
            ceiling: 4,
        },
        Command::ListBack,
    ]
}

// A row in brackets: code, stamp, value, weight.
#[derive(Clone, Copy)]
struct Bracketed(Row);

impl fmt::Display for Bracketed {
    fn fmt<W: fmt::Write>(&self, f: &mut fmt::Formatter<W>) -> fmt::Result {
        let row = self.0;
        write!(
            f,
            "({} {} {} {})",
            row.code.0, row.stamp, row.value, row.weight
        )
    }
}

// The four row lists.
#[derive(Clone, Copy)]
struct Rows {
    codes: [u64; 16],
    stamps: [u32; 16],
    values: [u64; 16],
    weights: [u64; 16],
}

impl Rows {
    fn blank() -> Rows {
        Rows {
            codes: [0; 16],
            stamps: [0; 16],
            values: [0; 16],
            weights: [0; 16],
        }
    }

    // The row at a place; in each list 0 past its end. They are read here: what the library wrote and read exchanged would not show.
    fn row(&self, place: usize) -> Row {
        Row {
            code: Code(self.codes.get(place).copied().unwrap_or(0)),
            stamp: self.stamps.get(place).copied().unwrap_or(0),
            value: self.values.get(place).copied().unwrap_or(0),
            weight: self.weights.get(place).copied().unwrap_or(0),
        }
    }

    // The lists, lent to be written.
    fn lent(&mut self) -> Fields<'_> {
        let Rows {
            codes,
            stamps,
            values,
            weights,
        } = self;
        Fields {
            codes,
            stamps,
            values,
            weights,
        }
    }
}

// The cache that the calls are made on.
#[derive(Clone, Copy)]
struct Cache {
    head: Head,
    entries: Rows,
    next: [u32; 16],
    prev: [u32; 16],
    stack: [u32; 16],
    cells: [u32; 32],
}

impl Cache {
    // A plain cache of capacity 9 and 16 slots. A refused opening would leave a head that every call refuses.
    fn begun() -> Cache {
        let mut cache = Cache {
            head: Head::fresh(0, 0, 0),
            entries: Rows::blank(),
            next: [0; 16],
            prev: [0; 16],
            stack: [0; 16],
            cells: [0; 32],
        };
        let mut state = cache.lent();
        if let Ok(head) = cache::open(Head::PLAIN, 9, 16, &mut state) {
            cache.head = head;
        }
        cache
    }

    // Head and lists, lent to be changed.
    fn lent(&mut self) -> State<'_> {
        let Cache {
            head,
            entries,
            next,
            prev,
            stack,
            cells,
        } = self;
        State {
            head: *head,
            fields: entries.lent(),
            links: Links { next, prev, stack },
            cells,
        }
    }

    // One call, with room for as many rows as there are records.
    fn call(&mut self, rows: &mut Fields<'_>, command: Command) -> Answer {
        let mut state = self.lent();
        let answer = door::call_within(&mut state, rows, 8, command);
        self.head = state.head;
        answer
    }

    // The rows of one call, as records, on a copy of the cache.
    fn as_records(self, command: Command) -> [Row; 8] {
        let mut cache = self;
        let mut state = cache.lent();
        let mut lists = Rows::blank();
        let mut rows = lists.lent();
        match command {
            Command::List | Command::ListBack => listed(&state.view(), &mut rows, command),
            _ => recorded(&mut state, &mut rows, command),
        }
    }
}

// What a call answered, and its rows in both forms: from the four row lists, and from the records.
fn show(
    rt: &impl Print,
    i: usize,
    answer: Answer,
    rows: &Rows,
    records: &[Row; 8],
) -> io::Result<()> {
    print!(rt; "call {i}")?;
    if let Answer::No(refusal) = answer {
        print!(rt; " no {}", refusal.number())?;
    }
    let n = answer.rows();
    print!(rt; ": rows {n}\n  numbers")?;
    for k in 0..n.min(8) {
        print!(rt; " {}", Bracketed(rows.row(k as usize)))?;
    }
    print!(rt; "\n  records")?;
    for row in records.iter().take(n as usize) {
        print!(rt; " {}", Bracketed(*row))?;
    }
    println!(rt)
}

// The calls are made one after another, each twice on the same state.
fn main(rt: HostRuntime) -> io::Result<()> {
    let mut cache = Cache::begun();
    let calls = commands();
    for (i, call) in calls.iter().enumerate() {
        let records = cache.as_records(*call);
        let mut lists = Rows::blank();
        let mut rows = lists.lent();
        let answer = cache.call(&mut rows, *call);
        show(&rt, i, answer, &lists, &records)?;
    }
    Ok(())
}
