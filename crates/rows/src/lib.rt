// What deciding needs, on a state that is only read: how many must leave, and rows for the caller.
#![tactic(auto)]

ghost use Rattle.std.specs.Prelude.{◌≡◌, ◌+◌, ◌-◌, ◌<◌, not, length};
ghost use Rattle.model.specs.Desk.{keeps as keeping};
ghost use Rattle.model.specs.Codes.{one};
ghost use Rattle.state.specs.State.{held, seen, SameRows};
ghost use Rattle.rows.specs.Views.{past_at, cost_at, Countable};
ghost use Rattle.rows.specs.Answers.{Offered, Handed};
ghost use Rattle.rows.specs.Lent.{Budgeted, Leaves, Read, Removes, Aged, WroteOldest, Sweepable, WroteRemoved, Listable, WroteAll, ListableBack, WroteBack};

use head::{Head, Row, Rule, Slot};
use state::{Fields, View};

// The slot itself, or the one ahead of it where it is the one to skip. NONE, the mark of 01 for a link that there is not, skips none: slots are compared with it as they
// are, and would be with an Option.
fn past(prev: &[u32], slot: Slot, skip: Slot) -> Slot
    requires { slot.0 < length prev.now }
    ensures { result.0 ≡ past_at prev.now skip.0 slot.0 }
{
    if slot.0 == skip.0 {
        list::ahead(prev, slot)
    } else {
        slot
    }
}

// What the entries take of the capacity together, without the one in the slot to skip.
fn taken_up(head: Head, weights: &[u64], skip: Slot) -> u64
    requires { Countable head weights.now skip.0 }
    ensures { result ≡ head.live + head.weight - cost_at weights.now skip.0 }
{
    let all = u64::from(head.live) + head.weight;
    if skip.0 == Head::NONE {
        all
    } else {
        all - (weights[skip.0 as usize] + 1)
    }
}

// How many must leave from the back until what stays takes at most the budget. The entry in the slot to skip counts as gone; NONE skips no slot.
pub fn leaving(view: &View<'_>, budget: u64, skip: Slot) -> u32
    requires { Budgeted (seen view.now) skip.0 }
    ensures { Leaves (seen view.now) budget skip.0 result }
{
    let weights = view.fields.weights;
    let prev = view.links.prev;
    let mut left = taken_up(view.head, weights, skip);
    let mut slot = view.head.back;
    let mut k: u32 = 0;
    // Entries are counted as they are passed, for as long as the budget is too small: no range is known before.
    while budget < left {
        let here = past(prev, slot, skip);
        left -= weights[here.0 as usize] + 1;
        slot = list::ahead(prev, here);
        k += 1;
    }
    k
}

// How many entries a rule does not keep.
pub fn removed_by(view: &View<'_>, rule: Rule) -> u32
    requires { Read (seen view.now) }
    ensures { Removes (seen view.now) rule result }
{
    let mut slot = view.head.front;
    let mut n: u32 = 0;
    for _ in 0..view.head.live {
        let row = view.fields.read(slot.0);
        n += u32::from(!rules::keeps(rule, row));
        slot = list::after(view.links.next, slot);
    }
    n
}

// Writes the k oldest entries as rows, oldest first. The entry in the slot to skip counts as gone; NONE skips no slot.
pub fn write_oldest(view: &View<'_>, k: u32, skip: Slot, rows: &mut Fields<'_>)
    requires { Aged (seen view.now) k skip.0 (held rows.old) }
    ensures lists { SameRows rows.old rows.new }
    ensures wrote { WroteOldest (seen view.now) k skip.0 (held rows.old) (held rows.new) }
{
    let prev = view.links.prev;
    let mut oldest = view.head.back;
    for j in 0..k {
        let here = past(prev, oldest, skip);
        rows.write(j, view.fields.read(here.0));
        oldest = list::ahead(prev, here);
    }
}

// Writes a row at place n where the rule does not keep it, and answers the place of the next row.
fn hand_out(rows: &mut Fields<'_>, n: u32, rule: Rule, row: Row) -> u32
    requires { Offered (held rows.old) n rule row }
    ensures lists { SameRows rows.old rows.new }
    ensures handed { Handed n rule row result (held rows.old) (held rows.new) }
{
    if rules::keeps(rule, row) {
        return n;
    }
    rows.write(n, row);
    n + 1
}

// Writes the entries that a rule does not keep as rows, front to back.
pub fn write_removed(view: &View<'_>, rule: Rule, rows: &mut Fields<'_>)
    requires { Sweepable (seen view.now) rule (held rows.old) }
    ensures lists { SameRows rows.old rows.new }
    ensures wrote { WroteRemoved (seen view.now) rule (held rows.old) (held rows.new) }
{
    let mut slot = view.head.front;
    let mut n: u32 = 0;
    for _ in 0..view.head.live {
        let row = view.fields.read(slot.0);
        n = hand_out(rows, n, rule, row);
        slot = list::after(view.links.next, slot);
    }
}

// Writes all entries as rows, front to back: what a rule removes that keeps none.
pub fn write_all(view: &View<'_>, rows: &mut Fields<'_>)
    requires { Listable (seen view.now) (held rows.old) }
    ensures lists { SameRows rows.old rows.new }
    ensures wrote { WroteAll (seen view.now) (held rows.old) (held rows.new) }
{
    let any = Rule::stamp(0);
    write_removed(view, any.negated(), rows);
}

// Writes all entries as rows, back to front.
pub fn write_all_back(view: &View<'_>, rows: &mut Fields<'_>)
    requires { ListableBack (seen view.now) (held rows.old) }
    ensures lists { SameRows rows.old rows.new }
    ensures wrote { WroteBack (seen view.now) (held rows.old) (held rows.new) }
{
    write_oldest(view, view.head.live, Slot(Head::NONE), rows);
}
