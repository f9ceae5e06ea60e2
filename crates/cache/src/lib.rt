// The calls of the cache, under clru's names. None asks anything of the numbers and lists it gets: where they describe no cache the answer is
// refusal 2, and nothing is touched. A call that hands out rows takes four row lists, one a field, and counts the rows it wrote.
#![tactic(auto)]

ghost use Rattle.std.specs.Prelude.{◌≡◌};
ghost use Rattle.head.specs.declared.Command.TheVariants.{Back, BackMut, Capacity, Clear, Contains, Front, FrontMut, Get, GetMut, IsEmpty, IsFull, Len, ListBack, List as ListFront, Peek, PeekMut, Pop, PopBack, PopFront, Put, PutOrModify, PutWithWeight, Resize, Retain, TryPutOrModify, Weight};
ghost use Rattle.head.specs.Fresh.{fresh_head};
ghost use Rattle.state.specs.State.{held, lent, seen, SameLists, SameRows};
ghost use Rattle.opening.specs.Begun.{Opens, headed, head_left};
ghost use Rattle.door.specs.Served.{Calls, Reads, Serves, Tells};

use head::{Answer, Code, Command, Head, Refusal, Rule};
use state::{Fields, State, View};

// Opens a cache in lists that may hold anything: what N slots need is made empty, and the state has the fresh head. Refused, all stays as it was.
pub fn open(kind: u32, capacity: u64, slots: u32, state: &mut State<'_>) -> Result<Head, Refusal>
    ensures lists { SameLists state.old state.new }
    ensures head { state.new.head ≡ head_left state.old.head result }
    ensures opens { Opens kind capacity slots (headed (fresh_head kind capacity slots) (lent state.old)) (headed (fresh_head kind capacity slots) (lent state.new)) result }
{
    opening::open(kind, capacity, slots, state)
}

// How many entries there are: `Count`.
pub fn len(view: &View<'_>) -> Answer
    ensures { Reads Len (seen view.now) result }
{
    door::read(view, Command::Len)
}

// The capacity: `Count`.
pub fn capacity(view: &View<'_>) -> Answer
    ensures { Reads Capacity (seen view.now) result }
{
    door::read(view, Command::Capacity)
}

// What the entries weigh together: `Count`.
pub fn weight(view: &View<'_>) -> Answer
    ensures { Reads Weight (seen view.now) result }
{
    door::read(view, Command::Weight)
}

// Whether there is no entry: `Flag`.
pub fn is_empty(view: &View<'_>) -> Answer
    ensures { Reads IsEmpty (seen view.now) result }
{
    door::read(view, Command::IsEmpty)
}

// Whether live + weight is the capacity: `Flag`.
pub fn is_full(view: &View<'_>) -> Answer
    ensures { Reads IsFull (seen view.now) result }
{
    door::read(view, Command::IsFull)
}

// The most recent entry: `Entry`, or `Absent`.
pub fn front(view: &View<'_>) -> Answer
    ensures { Reads Front (seen view.now) result }
{
    door::read(view, Command::Front)
}

// The least recent entry: `Entry`, or `Absent`.
pub fn back(view: &View<'_>) -> Answer
    ensures { Reads Back (seen view.now) result }
{
    door::read(view, Command::Back)
}

// The value of a code, which does not move: `Is`, or `Absent`.
pub fn peek(view: &View<'_>, code: Code) -> Answer
    ensures { Reads (Peek code) (seen view.now) result }
{
    door::read(view, Command::Peek(code))
}

// Whether a code is there: `Flag`.
pub fn contains(view: &View<'_>, code: Code) -> Answer
    ensures { Reads (Contains code) (seen view.now) result }
{
    door::read(view, Command::Contains(code))
}

// All entries as rows, front to back: `Done`.
pub fn list(view: &View<'_>, rows: &mut Fields<'_>) -> Answer
    ensures lists { SameRows rows.old rows.new }
    ensures tells { Tells ListFront (seen view.now) (held rows.old) (held rows.new) result }
{
    door::tell(view, rows, Command::List)
}

// All entries as rows, back to front: `Done`.
pub fn list_back(view: &View<'_>, rows: &mut Fields<'_>) -> Answer
    ensures lists { SameRows rows.old rows.new }
    ensures tells { Tells ListBack (seen view.now) (held rows.old) (held rows.new) result }
{
    door::tell(view, rows, Command::ListBack)
}

// The value of a code, which moves to the front: `Is`, or `Absent`.
pub fn get(state: &mut State<'_>, code: Code) -> Answer
    ensures lists { SameLists state.old state.new }
    ensures serves { Serves (Get code) 0 (lent state.old) (lent state.new) result }
{
    door::serve(state, Command::Get(code))
}

// Removes a code and answers its value: `Was`, or `Absent`.
pub fn pop(state: &mut State<'_>, code: Code) -> Answer
    ensures lists { SameLists state.old state.new }
    ensures serves { Serves (Pop code) 0 (lent state.old) (lent state.new) result }
{
    door::serve(state, Command::Pop(code))
}

// Removes the most recent entry and shows it: `Entry`, or `Absent`.
pub fn pop_front(state: &mut State<'_>) -> Answer
    ensures lists { SameLists state.old state.new }
    ensures serves { Serves PopFront 0 (lent state.old) (lent state.new) result }
{
    door::serve(state, Command::PopFront)
}

// Removes the least recent entry and shows it: `Entry`, or `Absent`.
pub fn pop_back(state: &mut State<'_>) -> Answer
    ensures lists { SameLists state.old state.new }
    ensures serves { Serves PopBack 0 (lent state.old) (lent state.new) result }
{
    door::serve(state, Command::PopBack)
}

// Removes all entries and answers how many: `Count`.
pub fn clear(state: &mut State<'_>) -> Answer
    ensures lists { SameLists state.old state.new }
    ensures serves { Serves Clear 0 (lent state.old) (lent state.new) result }
{
    door::serve(state, Command::Clear)
}

// Sets the value of a code, which moves to the front, on a plain cache: `Was` with the value replaced, or `Absent`.
pub fn get_mut(state: &mut State<'_>, code: Code, value: u64) -> Answer
    ensures lists { SameLists state.old state.new }
    ensures serves { Serves (GetMut code value) 0 (lent state.old) (lent state.new) result }
{
    door::serve(state, Command::GetMut { code, value })
}

// Sets the value of a code, which stays where it is, on a plain cache: `Was` with the value replaced, or `Absent`.
pub fn peek_mut(state: &mut State<'_>, code: Code, value: u64) -> Answer
    ensures lists { SameLists state.old state.new }
    ensures serves { Serves (PeekMut code value) 0 (lent state.old) (lent state.new) result }
{
    door::serve(state, Command::PeekMut { code, value })
}

// Sets the value of the most recent entry of a plain cache: `Was` with the value replaced, or `Absent`.
pub fn front_mut(state: &mut State<'_>, value: u64) -> Answer
    ensures lists { SameLists state.old state.new }
    ensures serves { Serves (FrontMut value) 0 (lent state.old) (lent state.new) result }
{
    door::serve(state, Command::FrontMut(value))
}

// Sets the value of the least recent entry of a plain cache: `Was` with the value replaced, or `Absent`.
pub fn back_mut(state: &mut State<'_>, value: u64) -> Answer
    ensures lists { SameLists state.old state.new }
    ensures serves { Serves (BackMut value) 0 (lent state.old) (lent state.new) result }
{
    door::serve(state, Command::BackMut(value))
}

// Puts a value in front of a plain cache. A present code keeps its stamp: `Was`; a new one pushes the back out of a full cache: `New`.
pub fn put(
    state: &mut State<'_>,
    rows: &mut Fields<'_>,
    code: Code,
    stamp: u32,
    value: u64,
) -> Answer
    ensures lists { SameLists state.old state.new }
    ensures row_lists { SameRows rows.old rows.new }
    ensures calls { Calls (Put code stamp value) (lent state.old) (lent state.new) (held rows.old) (held rows.new) result }
{
    door::call(state, rows, Command::Put { code, stamp, value })
}

// Puts an entry with a weight in front. A present code leaves first: `Was`; else `New`. What is pushed out is handed out, oldest first.
pub fn put_with_weight(
    state: &mut State<'_>,
    rows: &mut Fields<'_>,
    code: Code,
    stamp: u32,
    value: u64,
    weight: u64,
) -> Answer
    ensures lists { SameLists state.old state.new }
    ensures row_lists { SameRows rows.old rows.new }
    ensures calls { Calls (PutWithWeight code stamp value weight) (lent state.old) (lent state.new) (held rows.old) (held rows.new) result }
{
    door::call(
        state,
        rows,
        Command::PutWithWeight {
            code,
            stamp,
            value,
            weight,
        },
    )
}

// Removes what the rule does not keep and hands it out, front to back: `Done`.
pub fn retain(state: &mut State<'_>, rows: &mut Fields<'_>, rule: Rule) -> Answer
    ensures lists { SameLists state.old state.new }
    ensures row_lists { SameRows rows.old rows.new }
    ensures calls { Calls (Retain rule) (lent state.old) (lent state.new) (held rows.old) (held rows.new) result }
{
    door::call(state, rows, Command::Retain(rule))
}

// Sets the capacity. What no longer fits is handed out, oldest first: `Done`.
pub fn resize(state: &mut State<'_>, rows: &mut Fields<'_>, capacity: u64) -> Answer
    ensures lists { SameLists state.old state.new }
    ensures row_lists { SameRows rows.old rows.new }
    ensures calls { Calls (Resize capacity) (lent state.old) (lent state.new) (held rows.old) (held rows.new) result }
{
    door::call(state, rows, Command::Resize(capacity))
}

// Adds an amount to a present value, modulo 2^64, or puts it as a new one, on a plain cache: `Now`.
pub fn put_or_modify(
    state: &mut State<'_>,
    rows: &mut Fields<'_>,
    code: Code,
    stamp: u32,
    amount: u64,
) -> Answer
    ensures lists { SameLists state.old state.new }
    ensures row_lists { SameRows rows.old rows.new }
    ensures calls { Calls (PutOrModify code stamp amount) (lent state.old) (lent state.new) (held rows.old) (held rows.new) result }
{
    door::call(
        state,
        rows,
        Command::PutOrModify {
            code,
            stamp,
            amount,
        },
    )
}

// The same up to a ceiling: above it the value stays, and a present entry has moved to the front.
pub fn try_put_or_modify(
    state: &mut State<'_>,
    rows: &mut Fields<'_>,
    code: Code,
    stamp: u32,
    amount: u64,
    ceiling: u64,
) -> Answer
    ensures lists { SameLists state.old state.new }
    ensures row_lists { SameRows rows.old rows.new }
    ensures calls { Calls (TryPutOrModify code stamp amount ceiling) (lent state.old) (lent state.new) (held rows.old) (held rows.new) result }
{
    door::call(
        state,
        rows,
        Command::TryPutOrModify {
            code,
            stamp,
            amount,
            ceiling,
        },
    )
}
