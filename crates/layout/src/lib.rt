// Head, command and answer as lists of numbers, for callers in other languages: docs/LAYOUT.md has the tables.
#![tactic(auto)]

ghost use Rattle.std.specs.Prelude.{◌≡◌, cond, ltb, length, drop, ◌++◌, unwrap_or, option_map};
ghost use Rattle.head.specs.declared.Command.TheVariants.{Retain};
ghost use Rattle.layout.specs.Heads.{narrowed, head_of, head_left};
ghost use Rattle.layout.specs.Commands.{not_understood, ruled, command_of, command_in};
ghost use Rattle.layout.specs.Numbered.{numbers_of, numbers_left};

use head::{Answer, Code, Command, Head, Place, Refusal, Rule, Slot};

// A number of 32 bits. One past that width becomes the mark UNUSED, which no sound head has.
#[tactic(auto, unfolding(crate::specs::Heads::narrowed))]
pub fn narrow(x: u64) -> u32
    ensures { result ≡ narrowed x }
{
    u32::try_from(x).unwrap_or(Head::UNUSED)
}

// The head that a list holds. One that is too short, or an answer list with too little room, gives a head of no kind, which no call takes for sound: the
// clause names that head, where an Option would only say that there is none.
#[tactic(auto, unfolding(crate::specs::Heads::head_of))]
pub fn head_at(list: &[u64], room: usize) -> Head
    ensures { result ≡ head_of list.now room }
{
    let &[
        kind,
        capacity,
        slots,
        live,
        weight,
        front,
        back,
        top,
        depth,
        ..
    ] = list
    else {
        return Head::fresh(2, 0, 0);
    };
    if room < 8 {
        return Head::fresh(2, 0, 0);
    }
    Head {
        kind: narrow(kind),
        capacity,
        slots: narrow(slots),
        live: narrow(live),
        weight,
        front: Slot(narrow(front)),
        back: Slot(narrow(back)),
        top: Slot(narrow(top)),
        depth: Place(narrow(depth)),
    }
}

// Writes numbers at the start of a list that has room for them.
fn put_first(list: &mut [u64], numbers: &[u64])
    ensures { list.new ≡ cond (ltb (length list.old) (length numbers.now)) list.old (numbers.now ++ drop (length numbers.now) list.old) }
{
    if numbers.len() <= list.len() {
        list[..numbers.len()].copy_from_slice(numbers);
    }
}

// Writes a head to its list. After refusal 2, and where the list is too short, nothing is written. The refusal is the number that C is given.
#[tactic(auto, unfolding(crate::specs::Heads::head_left))]
pub fn put_head(list: &mut [u64], head: Head, refusal: u32)
    ensures { list.new ≡ head_left refusal list.old head }
{
    if refusal == Refusal::Unsound.number() {
        return;
    }
    put_first(
        list,
        &[
            u64::from(head.kind),
            head.capacity,
            u64::from(head.slots),
            u64::from(head.live),
            head.weight,
            u64::from(head.front.0),
            u64::from(head.back.0),
            u64::from(head.top.0),
            u64::from(head.depth.0),
        ],
    );
}

// The rule of `retain` with these numbers: its own, 1 for "not", low and high.
fn rule_of(a: u64, b: u64, c: u64, d: u64) -> Option<Rule>
    ensures { unwrap_or (option_map Retain result) not_understood ≡ ruled a b c d }
{
    if a <= u64::from(Rule::WEIGHT) && b <= 1 {
        Some(Rule {
            number: a as u32,
            not: b == 1,
            low: c,
            high: d,
        })
    } else {
        None
    }
}

// The call with this number, if it is understood. C names calls by number.
#[tactic(auto, unfolding(crate::specs::Commands::command_of))]
fn command_of(number: u64, a: u64, b: u64, c: u64, d: u64) -> Option<Command>
    ensures { unwrap_or result not_understood ≡ command_of number a b c d }
{
    Some(match number {
        1 => Command::Len,
        2 => Command::Capacity,
        3 => Command::Weight,
        4 => Command::IsEmpty,
        5 => Command::IsFull,
        6 => Command::Front,
        7 => Command::Back,
        8 => Command::Peek(Code(a)),
        9 => Command::Contains(Code(a)),
        10 => Command::List,
        11 => Command::ListBack,
        12 => Command::Get(Code(a)),
        13 => Command::Pop(Code(a)),
        14 => Command::PopFront,
        15 => Command::PopBack,
        16 => Command::Put {
            code: Code(a),
            stamp: u32::try_from(b).ok()?,
            value: c,
        },
        17 => Command::PutWithWeight {
            code: Code(a),
            stamp: u32::try_from(b).ok()?,
            value: c,
            weight: d,
        },
        18 => Command::Clear,
        19 => Command::Retain(rule_of(a, b, c, d)?),
        20 => Command::Resize(a),
        21 => Command::PutOrModify {
            code: Code(a),
            stamp: u32::try_from(b).ok()?,
            amount: c,
        },
        22 => Command::TryPutOrModify {
            code: Code(a),
            stamp: u32::try_from(b).ok()?,
            amount: c,
            ceiling: d,
        },
        23 => Command::GetMut {
            code: Code(a),
            value: b,
        },
        24 => Command::PeekMut {
            code: Code(a),
            value: b,
        },
        25 => Command::FrontMut(a),
        26 => Command::BackMut(a),
        _ => return None,
    })
}

// The call that a list holds. What is not understood becomes a resize to 0, which a sound cache refuses with 8: the clause
// names that command, where an Option would only say that there is none.
#[tactic(auto, unfolding(crate::specs::Commands::command_in))]
pub fn command_at(list: &[u64]) -> Command
    ensures { result ≡ command_in list.now }
{
    let &[number, a, b, c, d, ..] = list else {
        return Command::Resize(0);
    };
    command_of(number, a, b, c, d).unwrap_or(Command::Resize(0))
}

// An answer as the paper's numbers, which C reads: the refusal's number or 0, a number for the kind of answer or 0, and the values, 0 where the answer has none.
#[derive(Debug, Default, Clone, Copy, PartialEq, Eq)]
pub struct Numbers {
    pub refusal: u32,
    // 1 new, 2 was, 3 is, 4 now, 5 absent, 6 entry, 7 done, 8 count, 9 flag.
    pub word: u32,
    pub value: u64,
    // How many rows were written.
    pub rows: u32,
    // 1 where the code was new, or the flag is up.
    pub fresh: u32,
    pub code: u64,
    pub stamp: u32,
    pub weight: u64,
}

// The numbers of an answer.
pub fn numbers_of(answer: Answer) -> Numbers
    ensures { result ≡ numbers_of answer }
{
    let nothing = Numbers::default();
    match answer {
        Answer::No(why) => Numbers {
            refusal: why.number(),
            ..nothing
        },
        Answer::New { rows } => Numbers {
            word: 1,
            rows,
            fresh: 1,
            ..nothing
        },
        Answer::Was { value, rows } => Numbers {
            word: 2,
            value,
            rows,
            ..nothing
        },
        Answer::Is(value) => Numbers {
            word: 3,
            value,
            ..nothing
        },
        Answer::Now { value, new, rows } => Numbers {
            word: 4,
            value,
            rows,
            fresh: u32::from(new),
            ..nothing
        },
        Answer::Absent => Numbers { word: 5, ..nothing },
        Answer::Entry(row) => Numbers {
            word: 6,
            value: row.value,
            code: row.code.0,
            stamp: row.stamp,
            weight: row.weight,
            ..nothing
        },
        Answer::Done { rows } => Numbers {
            word: 7,
            rows,
            ..nothing
        },
        Answer::Count(value) => Numbers {
            word: 8,
            value,
            ..nothing
        },
        Answer::Flag(up) => Numbers {
            word: 9,
            fresh: u32::from(up),
            ..nothing
        },
    }
}

// Writes an answer's numbers where the list has room for them.
fn put_numbers(list: &mut [u64], n: Numbers)
    ensures { list.new ≡ numbers_left list.old n }
{
    put_first(
        list,
        &[
            u64::from(n.refusal),
            u64::from(n.word),
            n.value,
            u64::from(n.rows),
            u64::from(n.fresh),
            n.code,
            u64::from(n.stamp),
            n.weight,
        ],
    );
}

// Writes an answer to its list, and gives the refusal's number or 0, which is what C is given.
pub fn put_answer(list: &mut [u64], answer: Answer) -> u32
    ensures { (result ≡ (numbers_of answer).refusal) × (list.new ≡ numbers_left list.old (numbers_of answer)) }
{
    let n = numbers_of(answer);
    put_numbers(list, n);
    n.refusal
}
