// What every layer shares: the head of a cache with its bounds and marks, the calls as commands, and what is answered.
#![tactic(auto)]

ghost use Rattle.std.specs.Prelude.{◌≡◌, not};
ghost use Rattle.head.specs.Answers.{row_count};
ghost use Rattle.head.specs.Bounds.{allowed};
ghost use Rattle.head.specs.Forms.{form_of};
ghost use Rattle.head.specs.Fresh.{fresh_head, reweighed, recapped};
ghost use Rattle.head.specs.Refusals.{number_of};
ghost use Rattle.head.specs.Rules.{code_rule, value_rule, stamp_rule, weight_rule, rule_of};

// The number of a slot, or one of the marks NONE and UNUSED of `Head`.
#[derive(Debug, Clone, Copy, PartialEq, Eq, Default)]
pub struct Slot(pub u32);

// What a key is compared by.
#[derive(Debug, Clone, Copy, PartialEq, Eq)]
pub struct Code(pub u64);

// A place in the free stack, counted from its bottom.
#[derive(Debug, Clone, Copy, PartialEq, Eq)]
pub struct Place(pub u32);

// The numbers of a cache that stand beside its lists. A caller lends it, so any of them may be damaged, the kind too.
#[derive(Debug, Clone, Copy, PartialEq, Eq)]
pub struct Head {
    // PLAIN or WEIGHED, as a number: 01 has refusals for any other that is lent.
    pub kind: u32,
    pub capacity: u64,
    // How many slots the lists have, N.
    pub slots: u32,
    // How many entries there are, and what they weigh together.
    pub live: u32,
    pub weight: u64,
    // The slots of the most and the least recent entry; NONE where there is no entry.
    pub front: Slot,
    pub back: Slot,
    // The crate's `nodes.len()`: no slot from here on is in use or waits on the stack. Below it a slot is one of the two.
    pub top: Slot,
    // How many slots wait on the free stack: the place that the next one takes.
    pub depth: Place,
}

impl Head {
    pub const PLAIN: u32 = 0;

    pub const WEIGHED: u32 = 1;

    pub const MOST_CAPACITY: u64 = 9223372036854775807;

    pub const MOST_SLOTS: u32 = 4096;
    // Marks that 01 names, for lists of plain numbers have no Option. No slot: the end of a list, an empty cell.
    pub const NONE: u32 = 4294967295;
    // The next link of a slot that holds no entry.
    pub const UNUSED: u32 = 4294967294;

    // Whether a cache may be opened with these numbers.
    pub fn allows(kind: u32, capacity: u64, slots: u32) -> bool
        ensures { result ≡ allowed kind capacity slots }
    {
        matches!(kind, Head::PLAIN | Head::WEIGHED)
            && (1..=Head::MOST_CAPACITY).contains(&capacity)
            && (1..=Head::MOST_SLOTS).contains(&slots)
    }

    // The head of a cache that holds nothing yet.
    pub fn fresh(kind: u32, capacity: u64, slots: u32) -> Head
        ensures { result ≡ fresh_head kind capacity slots }
    {
        Head {
            kind,
            capacity,
            slots,
            live: 0,
            weight: 0,
            front: Slot(Head::NONE),
            back: Slot(Head::NONE),
            top: Slot(0),
            depth: Place(0),
        }
    }

    pub fn with_weight(self, weight: u64) -> Head
        ensures { result ≡ reweighed weight self }
    {
        Head { weight, ..self }
    }

    pub fn with_capacity(self, capacity: u64) -> Head
        ensures { result ≡ recapped capacity self }
    {
        Head { capacity, ..self }
    }
}

// An entry, as it is stored and as it is handed out.
#[derive(Debug, Clone, Copy, PartialEq, Eq)]
pub struct Row {
    pub code: Code,
    pub stamp: u32,
    pub value: u64,
    pub weight: u64,
}

impl Row {
    // What a slot holds that has no entry.
    pub const BLANK: Row = Row {
        code: Code(0),
        stamp: 0,
        value: 0,
        weight: 0,
    };
}

// Which entries `retain` keeps.
#[derive(Debug, Clone, Copy, PartialEq, Eq)]
pub struct Rule {
    // CODE and VALUE: from low to high, both included. STAMP: at least low. WEIGHT: at most high. The other bound is not read.
    // A number, for it comes from outside and may name no rule: 01 has a refusal for that.
    pub number: u32,
    // Keep those that fail the rule instead.
    pub not: bool,
    pub low: u64,
    pub high: u64,
}

impl Rule {
    pub const CODE: u32 = 0;

    pub const VALUE: u32 = 1;

    pub const STAMP: u32 = 2;

    pub const WEIGHT: u32 = 3;

    fn new(number: u32, low: u64, high: u64) -> Rule
        ensures { result ≡ rule_of number low high }
    {
        Rule {
            number,
            not: false,
            low,
            high,
        }
    }

    pub fn code(low: Code, high: Code) -> Rule
        ensures { result ≡ rule_of code_rule low.0 high.0 }
    {
        Rule::new(Rule::CODE, low.0, high.0)
    }

    pub fn value(low: u64, high: u64) -> Rule
        ensures { result ≡ rule_of value_rule low high }
    {
        Rule::new(Rule::VALUE, low, high)
    }

    pub fn stamp(least: u32) -> Rule
        ensures { result ≡ rule_of stamp_rule least 0 }
    {
        Rule::new(Rule::STAMP, u64::from(least), 0)
    }

    pub fn weight(most: u64) -> Rule
        ensures { result ≡ rule_of weight_rule 0 most }
    {
        Rule::new(Rule::WEIGHT, 0, most)
    }

    // The rule that keeps what this one does not.
    pub fn negated(self) -> Rule
        ensures { result ≡ record { number = self.number; not = not self.not; low = self.low; high = self.high } }
    {
        Rule {
            not: !self.not,
            ..self
        }
    }
}

// A call after opening, with its numbers.
#[derive(Debug, Clone, Copy, PartialEq, Eq)]
pub enum Command {
    Len,
    Capacity,
    Weight,
    IsEmpty,
    IsFull,
    Front,
    Back,
    Peek(Code),
    Contains(Code),
    // All entries, front to back or back to front.
    List,
    ListBack,
    Get(Code),
    Pop(Code),
    PopFront,
    PopBack,
    Put {
        code: Code,
        stamp: u32,
        value: u64,
    },
    PutWithWeight {
        code: Code,
        stamp: u32,
        value: u64,
        weight: u64,
    },
    Clear,
    Retain(Rule),
    Resize(u64),
    PutOrModify {
        code: Code,
        stamp: u32,
        amount: u64,
    },
    TryPutOrModify {
        code: Code,
        stamp: u32,
        amount: u64,
        ceiling: u64,
    },
    // The four that set a value.
    GetMut {
        code: Code,
        value: u64,
    },
    PeekMut {
        code: Code,
        value: u64,
    },
    FrontMut(u64),
    BackMut(u64),
}

// Which of four promises a call has, by what it does with what it is lent.
#[derive(Debug, Clone, Copy, PartialEq, Eq)]
pub enum Form {
    // Reads, and hands out no row.
    Reading,
    // Reads, and hands out entries that stay.
    Listing,
    // Changes the cache, and hands out no row.
    Acting,
    // Changes the cache, and hands out the entries that leave.
    Handing,
}

impl Command {
    pub fn form(self) -> Form
        ensures { result ≡ form_of self }
    {
        match self {
            Command::Len
            | Command::Capacity
            | Command::Weight
            | Command::IsEmpty
            | Command::IsFull
            | Command::Front
            | Command::Back
            | Command::Peek(_)
            | Command::Contains(_) => Form::Reading,
            Command::List | Command::ListBack => Form::Listing,
            Command::Get(_)
            | Command::Pop(_)
            | Command::PopFront
            | Command::PopBack
            | Command::Clear
            | Command::GetMut { .. }
            | Command::PeekMut { .. }
            | Command::FrontMut(_)
            | Command::BackMut(_) => Form::Acting,
            Command::Put { .. }
            | Command::PutWithWeight { .. }
            | Command::Retain(_)
            | Command::Resize(_)
            | Command::PutOrModify { .. }
            | Command::TryPutOrModify { .. } => Form::Handing,
        }
    }
}

// Why a call was not carried out, and what helps.
#[derive(Debug, Clone, Copy, PartialEq, Eq)]
pub enum Refusal {
    // 1. Opening: a kind other than 0 and 1, a capacity or a slot count out of bounds, or a list too short: lend longer lists, or ask for less.
    NotOpened,
    // 2. The numbers are no sound cache, or a list is shorter than the slots need: hand over head and lists as the last call left them.
    Unsound,
    // 3. The call is not for this kind of cache: on a weighed one use `put_with_weight`; on a plain one every weight is 0.
    WrongKind,
    // 4. The weight alone is the capacity or more: take a lighter entry, or enlarge the cache.
    TooHeavy,
    // 5. A new code, every slot is taken and nothing is to be pushed out: remove an entry, or open with more slots.
    NoSlot,
    // 6. More rows to hand out than the row list holds: lend a longer one.
    TooFewRows,
    // 7. The sum is above the ceiling: raise it, or take a smaller amount.
    OverCeiling,
    // 8. A capacity of 0 or out of bounds, a rule that does not exist, or a line that is not understood: mend the call.
    NotUnderstood,
}

impl Refusal {
    // Its number in the paper's table. A method and no From: docs/LAYERS.md names it.
    pub fn number(self) -> u32
        ensures { result ≡ number_of self }
    {
        match self {
            Refusal::NotOpened => 1,
            Refusal::Unsound => 2,
            Refusal::WrongKind => 3,
            Refusal::TooHeavy => 4,
            Refusal::NoSlot => 5,
            Refusal::TooFewRows => 6,
            Refusal::OverCeiling => 7,
            Refusal::NotUnderstood => 8,
        }
    }
}

// What a call says. `rows` counts the rows written to the lent list.
#[derive(Debug, Clone, Copy, PartialEq, Eq)]
pub enum Answer {
    No(Refusal),
    // The code was absent and is now in front.
    New { rows: u32 },
    // The value that was replaced or removed.
    Was { value: u64, rows: u32 },
    // The value that was found.
    Is(u64),
    // The value that is held now, and whether the code was new.
    Now { value: u64, new: bool, rows: u32 },
    // There is no such entry.
    Absent,
    // The entry at the front or at the back.
    Entry(Row),
    Done { rows: u32 },
    Count(u64),
    Flag(bool),
}

impl Answer {
    // How many rows it counts, 0 where it counts none.
    pub fn rows(self) -> u32
        ensures { result ≡ row_count self }
    {
        match self {
            Answer::New { rows }
            | Answer::Was { rows, .. }
            | Answer::Now { rows, .. }
            | Answer::Done { rows } => rows,
            Answer::No(_)
            | Answer::Is(_)
            | Answer::Absent
            | Answer::Entry(_)
            | Answer::Count(_)
            | Answer::Flag(_) => 0,
        }
    }
}
