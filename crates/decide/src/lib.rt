// Every call decided before anything changes: its answer or refusal, and the plan. The state is only read.
#![tactic(auto)]

ghost use Rattle.std.specs.Prelude.{◌≡◌, ℕ, ◌+◌, ◌*◌, ◌≤◌, ◌&&◌, List, ◌==◌, nat_lt, nat_le};
ghost use Rattle.head.specs.Bounds.{most_capacity, plain_kind, capacity_ok};
ghost use Rattle.model.specs.Desk.{kind_of, entry};
ghost use Rattle.model.specs.Calls.{peek_call, contains_call, get_call, pop_call, get_mut_call, put_call, put_with_weight_call, put_or_modify_call, try_put_or_modify_call, retain_call, resize_call, wrong_weight};
ghost use Rattle.model.specs.Perform.{verdict};
ghost use Rattle.table.specs.Sound.{Gapped};
ghost use Rattle.state.specs.State.{seen, viewed};
ghost use Rattle.plan.specs.States.{Means, Sound};
ghost use Rattle.head.specs.declared.Answer.TheVariants.{Done};
ghost use Rattle.head.specs.declared.Refusal.TheVariants.{WrongKind, TooFewRows};
ghost use Rattle.rows.specs.Views.{Forward, Weighted};
ghost use Rattle.decide.specs.Views.{ForSome, Sought, Loaded};
ghost use Rattle.decide.specs.Settled.{Settles, Always, settled, given, peek_mut_call};
ghost use Rattle.decide.specs.Wants.{wanted_by, search_for};
ghost use Rattle.decide.specs.Numbers.{fitted, admitted, pushes, entered, modified, Ending, Readable, Reached, shown, popped, assigned};

use head::{Answer, Code, Command, Head, Refusal, Row, Rule, Slot};
use plan::{Decision, Plan};
use state::{FieldsView, View};
use table::Search;

// The code that a command looks for, if any.
#[tactic(auto, unfolding(crate::specs::Wants::wanted_by))]
fn wanted_by(command: Command) -> Option<Code>
    ensures { result ≡ wanted_by command }
{
    match command {
        Command::Peek(code)
        | Command::Contains(code)
        | Command::Get(code)
        | Command::Pop(code)
        | Command::Put { code, .. }
        | Command::PutWithWeight { code, .. }
        | Command::PutOrModify { code, .. }
        | Command::TryPutOrModify { code, .. }
        | Command::GetMut { code, .. }
        | Command::PeekMut { code, .. } => Some(code),
        _ => None,
    }
}

// The one search of a call, for the code that its command looks for. Where it looks for none no cell is read, and nobody reads the answer, which the
// definition `search_for` names.
fn seek(view: &View<'_>, command: Command) -> Search
    requires { Gapped (2 * view.now.head.slots) view.now.cells.now view.now.fields.codes.now }
    ensures { result ≡ search_for (wanted_by command) view.now.head.slots view.now.cells.now view.now.fields.codes.now }
{
    let Some(code) = wanted_by(command) else {
        return Search::Empty { cell: 0, count: 0 };
    };
    table::look(
        view.cells,
        view.fields.codes,
        view.head.slots as usize,
        code,
    )
}

// 3 where the cache is not a plain one.
fn plain_only(kind: u32) -> Result<(), Refusal>
    ensures { result ≡ given (kind == plain_kind) WrongKind }
{
    if kind == Head::PLAIN {
        Ok(())
    } else {
        Err(Refusal::WrongKind)
    }
}

// 6 where there are more rows than the lists lent for them hold.
fn within(room: usize, k: u32) -> Result<(), Refusal>
    ensures { result ≡ given (nat_le k room) TooFewRows }
{
    if k as usize <= room {
        Ok(())
    } else {
        Err(Refusal::TooFewRows)
    }
}

// Whether there is no slot for a new row: every one is taken, and none of k leaves.
fn no_slot(head: Head, k: u32) -> bool
    ensures { result ≡ (head.live == head.slots && k == 0) }
{
    head.live == head.slots && k == 0
}

// A new row comes in after k leave: 5 where every slot is taken and none leaves, then 6.
fn admit(head: Head, room: usize, k: u32, row: Row, answer: Answer) -> Result<Decision, Refusal>
    ensures { settled result ≡ admitted head room k row answer }
{
    if no_slot(head, k) {
        return Err(Refusal::NoSlot);
    }
    within(room, k)?;
    Ok(Decision {
        answer,
        plan: Plan::Place { evict: k, row },
    })
}

// How many a new code pushes out of a plain cache: the back where live = C.
fn pushing(head: Head) -> u32
    ensures { result ≡ pushes head }
{
    u32::from(u64::from(head.live) == head.capacity)
}

// Whether a weight is not for this kind: any but 0 on a plain cache.
fn wrong_weight(kind: u32, weight: u64) -> bool
    ensures { result ≡ wrong_weight (kind_of kind) weight }
{
    kind == Head::PLAIN && weight != 0
}

// Whether the exact sum is above the ceiling.
fn over(old: u64, amount: u64, ceiling: u64) -> bool
    ensures { result ≡ nat_lt ceiling (old + amount) }
{
    ceiling < old || ceiling - old < amount
}

// The row of a plain cache: it weighs nothing.
fn plain_row(code: Code, stamp: u32, value: u64) -> Row
    ensures { result ≡ entry code.0 stamp value 0 }
{
    Row {
        code,
        stamp,
        value,
        weight: 0,
    }
}

// An absent code comes in with an amount.
fn enter(head: Head, room: usize, row: Row) -> Result<Decision, Refusal>
    requires { row.weight ≡ 0 }
    ensures { settled result ≡ entered head room row.code.0 row.stamp row.value }
{
    let k = pushing(head);
    admit(
        head,
        room,
        k,
        row,
        Answer::Now {
            value: row.value,
            new: true,
            rows: k,
        },
    )
}

// The entry in a slot has an amount added to its value, modulo 2^64.
fn modify(slot: Slot, old: u64, amount: u64) -> Decision
    ensures { result ≡ modified slot old amount }
{
    let sum = old.wrapping_add(amount);
    Decision {
        answer: Answer::Now {
            value: sum,
            new: false,
            rows: 0,
        },
        plan: Plan::Renew { slot, value: sum },
    }
}

// `is_full`: live + weight = C.
fn is_full(head: Head) -> bool
    requires { head.live + head.weight ≤ most_capacity }
    ensures { result ≡ (head.live + head.weight == head.capacity) }
{
    u64::from(head.live) + head.weight == head.capacity
}

// `front` and `back`, by the slot at that end: 01 asks for the mark NONE where there is none.
fn show(fields: &FieldsView<'_>, slot: Slot) -> Decision
    requires { Ending slot.0 (viewed fields.now) }
    ensures { result ≡ shown (viewed fields.now) slot }
{
    if slot.0 == Head::NONE {
        return Decision::say(Answer::Absent);
    }
    let row = fields.read(slot.0);
    Decision::say(Answer::Entry(row))
}

// `pop_front` and `pop_back`, by the slot at that end.
fn pop_end(fields: &FieldsView<'_>, slot: Slot) -> Decision
    requires { Ending slot.0 (viewed fields.now) }
    ensures { result ≡ popped (viewed fields.now) slot }
{
    if slot.0 == Head::NONE {
        return Decision::say(Answer::Absent);
    }
    let row = fields.read(slot.0);
    Decision {
        answer: Answer::Entry(row),
        plan: Plan::Drop(slot),
    }
}

// `front_mut` and `back_mut`, by the slot at that end.
fn set_end(kind: u32, values: &[u64], slot: Slot, value: u64) -> Result<Decision, Refusal>
    requires { Readable slot.0 values.now }
    ensures { settled result ≡ assigned kind values.now slot value }
{
    plain_only(kind)?;
    if slot.0 == Head::NONE {
        return Ok(Decision::say(Answer::Absent));
    }
    let old = values[slot.0 as usize];
    Ok(Decision {
        answer: Answer::Was {
            value: old,
            rows: 0,
        },
        plan: Plan::Set { slot, value },
    })
}

// The calls that look for a code, each by what the search for it found: 01 asks for its enum to be taken apart by let .. else.

fn contains(search: Search) -> Decision
    ensures { (head : Head) (values : List ℕ) (code : ℕ) → Always (Sought head values search code) (contains_call code) result }
{
    let Search::Found { .. } = search else {
        return Decision::say(Answer::Flag(false));
    };
    Decision::say(Answer::Flag(true))
}

fn peek(values: &[u64], search: Search) -> Decision
    requires { Reached search values.now }
    ensures { (head : Head) (code : ℕ) → Always (Sought head values.now search code) (peek_call code) result }
{
    let Search::Found { slot, .. } = search else {
        return Decision::say(Answer::Absent);
    };
    let value = values[slot.0 as usize];
    Decision::say(Answer::Is(value))
}

fn get(values: &[u64], search: Search) -> Decision
    requires { Reached search values.now }
    ensures { (head : Head) (code : ℕ) → Always (Sought head values.now search code) (get_call code) result }
{
    let Search::Found { slot, .. } = search else {
        return Decision::say(Answer::Absent);
    };
    let value = values[slot.0 as usize];
    Decision {
        answer: Answer::Is(value),
        plan: Plan::Raise(slot),
    }
}

fn pop(values: &[u64], search: Search) -> Decision
    requires { Reached search values.now }
    ensures { (head : Head) (code : ℕ) → Always (Sought head values.now search code) (pop_call code) result }
{
    let Search::Found { slot, .. } = search else {
        return Decision::say(Answer::Absent);
    };
    let value = values[slot.0 as usize];
    Decision {
        answer: Answer::Was { value, rows: 0 },
        plan: Plan::Drop(slot),
    }
}

fn get_mut(head: Head, values: &[u64], search: Search, value: u64) -> Result<Decision, Refusal>
    requires { Reached search values.now }
    ensures { (code : ℕ) → Always (Sought head values.now search code) (get_mut_call code value) (settled result) }
{
    plain_only(head.kind)?;
    let Search::Found { slot, .. } = search else {
        return Ok(Decision::say(Answer::Absent));
    };
    let old = values[slot.0 as usize];
    Ok(Decision {
        answer: Answer::Was {
            value: old,
            rows: 0,
        },
        plan: Plan::Renew { slot, value },
    })
}

// As `get_mut` but for the plan: handed in, the plan would be a closure with a clause of its own.
fn peek_mut(head: Head, values: &[u64], search: Search, value: u64) -> Result<Decision, Refusal>
    requires { Reached search values.now }
    ensures { (code : ℕ) → Always (Sought head values.now search code) (peek_mut_call code value) (settled result) }
{
    plain_only(head.kind)?;
    let Search::Found { slot, .. } = search else {
        return Ok(Decision::say(Answer::Absent));
    };
    let old = values[slot.0 as usize];
    Ok(Decision {
        answer: Answer::Was {
            value: old,
            rows: 0,
        },
        plan: Plan::Set { slot, value },
    })
}

fn put(
    head: Head,
    values: &[u64],
    search: Search,
    room: usize,
    row: Row,
) -> Result<Decision, Refusal>
    requires { Reached search values.now × (row.weight ≡ 0) }
    ensures { Settles (Sought head values.now search row.code.0) (put_call row.code.0 row.stamp row.value) room (settled result) }
{
    plain_only(head.kind)?;
    let Search::Found { slot, .. } = search else {
        let k = pushing(head);
        return admit(head, room, k, row, Answer::New { rows: k });
    };
    let old = values[slot.0 as usize];
    Ok(Decision {
        answer: Answer::Was {
            value: old,
            rows: 0,
        },
        plan: Plan::Renew {
            slot,
            value: row.value,
        },
    })
}

fn put_or_modify(
    head: Head,
    values: &[u64],
    search: Search,
    room: usize,
    row: Row,
) -> Result<Decision, Refusal>
    requires { Reached search values.now × (row.weight ≡ 0) }
    ensures { Settles (Sought head values.now search row.code.0) (put_or_modify_call row.code.0 row.stamp row.value) room (settled result) }
{
    plain_only(head.kind)?;
    let Search::Found { slot, .. } = search else {
        return enter(head, room, row);
    };
    let old = values[slot.0 as usize];
    Ok(modify(slot, old, row.value))
}

fn try_put_or_modify(
    head: Head,
    values: &[u64],
    search: Search,
    room: usize,
    row: Row,
    ceiling: u64,
) -> Result<Decision, Refusal>
    requires { Reached search values.now × (row.weight ≡ 0) }
    ensures { Settles (Sought head values.now search row.code.0) (try_put_or_modify_call row.code.0 row.stamp row.value ceiling) room (settled result) }
{
    plain_only(head.kind)?;
    let Search::Found { slot, .. } = search else {
        if ceiling < row.value {
            return Err(Refusal::OverCeiling);
        }
        return enter(head, room, row);
    };
    let old = values[slot.0 as usize];
    if over(old, row.value, ceiling) {
        return Ok(Decision {
            answer: Answer::No(Refusal::OverCeiling),
            plan: Plan::Raise(slot),
        });
    }
    Ok(modify(slot, old, row.value))
}

fn put_with_weight(
    view: &View<'_>,
    search: Search,
    room: usize,
    row: Row,
) -> Result<Decision, Refusal>
    requires { ForSome (Loaded view.now.head view.now.fields.values.now view.now.fields.weights.now view.now.links.prev.now search row.code.0) }
    ensures { Settles (Loaded view.now.head view.now.fields.values.now view.now.fields.weights.now view.now.links.prev.now search row.code.0) (put_with_weight_call row.code.0 row.stamp row.value row.weight) room (settled result) }
{
    let head = view.head;
    if wrong_weight(head.kind, row.weight) {
        return Err(Refusal::WrongKind);
    }
    if head.capacity <= row.weight {
        return Err(Refusal::TooHeavy);
    }
    // What entries may take beside the new one: eviction goes on while live + weight + new weight >= C.
    let budget = head.capacity - 1 - row.weight;
    let Search::Found { slot, .. } = search else {
        let k = rows::leaving(view, budget, Slot(Head::NONE));
        return admit(head, room, k, row, Answer::New { rows: k });
    };
    let k = rows::leaving(view, budget, slot);
    let old = view.fields.values[slot.0 as usize];
    within(room, k)?;
    Ok(Decision {
        answer: Answer::Was {
            value: old,
            rows: k,
        },
        plan: Plan::Replace {
            slot,
            evict: k,
            row,
        },
    })
}

fn retain(view: &View<'_>, room: usize, rule: Rule) -> Result<Decision, Refusal>
    requires { ForSome (Forward view.now.head (viewed view.now.fields) view.now.links.next.now) }
    ensures { Settles (Forward view.now.head (viewed view.now.fields) view.now.links.next.now) (retain_call rule) room (settled result) }
{
    if Rule::WEIGHT < rule.number {
        return Err(Refusal::NotUnderstood);
    }
    let k = rows::removed_by(view, rule);
    within(room, k)?;
    Ok(Decision {
        answer: Answer::Done { rows: k },
        plan: Plan::Sweep(rule),
    })
}

// Whether a cache may have this capacity.
fn capacity_ok(capacity: u64) -> bool
    ensures { result ≡ capacity_ok capacity }
{
    (1..=Head::MOST_CAPACITY).contains(&capacity)
}

fn resize(view: &View<'_>, room: usize, capacity: u64) -> Result<Decision, Refusal>
    requires { ForSome (Weighted view.now.head view.now.fields.weights.now view.now.links.prev.now) }
    ensures { Settles (Weighted view.now.head view.now.fields.weights.now view.now.links.prev.now) (resize_call capacity) room (settled result) }
{
    if !capacity_ok(capacity) {
        return Err(Refusal::NotUnderstood);
    }
    let k = rows::leaving(view, capacity, Slot(Head::NONE));
    within(room, k)?;
    Ok(Decision {
        answer: Answer::Done { rows: k },
        plan: Plan::Fit { evict: k, capacity },
    })
}

// A listing, either way.
fn list(live: u32, room: usize, plan: Plan) -> Result<Decision, Refusal>
    ensures { settled result ≡ fitted room live (record { answer = Done live; plan = plan }) }
{
    within(room, live)?;
    Ok(Decision {
        answer: Answer::Done { rows: live },
        plan,
    })
}

// A call with so many rows lent: what is decided, or a refusal that leaves all untouched.
fn settle(view: &View<'_>, room: usize, command: Command) -> Result<Decision, Refusal>
    requires { Sound (seen view.now) }
    ensures { Settles (Means (seen view.now)) (verdict command) room (settled result) }
{
    let head = view.head;
    let live = u64::from(head.live);
    let fields = &view.fields;
    let values = view.fields.values;
    let search = seek(view, command);
    match command {
        Command::Len => Ok(Decision::say(Answer::Count(live))),
        Command::Capacity => Ok(Decision::say(Answer::Count(head.capacity))),
        Command::Weight => Ok(Decision::say(Answer::Count(head.weight))),
        Command::IsEmpty => Ok(Decision::say(Answer::Flag(live == 0))),
        Command::IsFull => Ok(Decision::say(Answer::Flag(is_full(head)))),
        Command::Front => Ok(show(fields, head.front)),
        Command::Back => Ok(show(fields, head.back)),
        Command::Peek(_) => Ok(peek(values, search)),
        Command::Contains(_) => Ok(contains(search)),
        Command::List => list(head.live, room, Plan::List),
        Command::ListBack => list(head.live, room, Plan::ListBack),
        Command::Get(_) => Ok(get(values, search)),
        Command::Pop(_) => Ok(pop(values, search)),
        Command::PopFront => Ok(pop_end(fields, head.front)),
        Command::PopBack => Ok(pop_end(fields, head.back)),
        Command::Put { code, stamp, value } => put(
            head,
            values,
            search,
            room,
            plain_row(code, stamp, value),
        ),
        Command::PutWithWeight {
            code,
            stamp,
            value,
            weight,
        } => put_with_weight(
            view,
            search,
            room,
            Row {
                code,
                stamp,
                value,
                weight,
            },
        ),
        Command::Clear => Ok(Decision {
            answer: Answer::Count(live),
            plan: Plan::Clear,
        }),
        Command::Retain(rule) => retain(view, room, rule),
        Command::Resize(capacity) => resize(view, room, capacity),
        Command::PutOrModify {
            code,
            stamp,
            amount,
        } => put_or_modify(head, values, search, room, plain_row(code, stamp, amount)),
        Command::TryPutOrModify {
            code,
            stamp,
            amount,
            ceiling,
        } => try_put_or_modify(
            head,
            values,
            search,
            room,
            plain_row(code, stamp, amount),
            ceiling,
        ),
        Command::GetMut { value, .. } => get_mut(head, values, search, value),
        Command::PeekMut { value, .. } => peek_mut(head, values, search, value),
        Command::FrontMut(value) => set_end(head.kind, values, head.front, value),
        Command::BackMut(value) => set_end(head.kind, values, head.back, value),
    }
}

// Decides a call, with so many rows lent.
pub fn decide(view: &View<'_>, room: usize, command: Command) -> Decision
    requires { Sound (seen view.now) }
    ensures { Settles (Means (seen view.now)) (verdict command) room result }
{
    settle(view, room, command).unwrap_or_else(Decision::refuse)
}
