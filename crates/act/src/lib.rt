// A plan carried out: the rows that it hands out are written, then the lists change.
#![tactic(auto)]

ghost use Rattle.state.specs.State.{held, lent, seen, SameLists, SameRows};
ghost use Rattle.plan.specs.declared.Plan.TheVariants.{Place, Replace, Fit};
ghost use Rattle.act.specs.Acted.{Prepared, Acted, OfferedBy, HandedOutBy};

use head::{Head, Row, Slot};
use plan::Plan;
use state::{Fields, State, View};

// So many leave from the back, then the row stands in front.
fn place(state: &mut State<'_>, evict: u32, row: Row)
    requires { Prepared (Place evict row) (lent state.old) }
    ensures lists { SameLists state.old state.new }
    ensures acted { Acted (Place evict row) (lent state.old) (lent state.new) }
{
    store::evict(state, evict);
    store::add(state, row);
}

// The entry in the slot leaves, then so many from the back, then the row stands in front.
fn replace(state: &mut State<'_>, slot: Slot, evict: u32, row: Row)
    requires { Prepared (Replace slot evict row) (lent state.old) }
    ensures lists { SameLists state.old state.new }
    ensures acted { Acted (Replace slot evict row) (lent state.old) (lent state.new) }
{
    store::remove(state, slot);
    place(state, evict, row);
}

// So many leave from the back, then the capacity is set.
fn fit(state: &mut State<'_>, evict: u32, capacity: u64)
    requires { Prepared (Fit evict capacity) (lent state.old) }
    ensures lists { SameLists state.old state.new }
    ensures acted { Acted (Fit evict capacity) (lent state.old) (lent state.new) }
{
    store::evict(state, evict);
    store::resize(state, capacity);
}

// Carries a plan out, rows apart. It cannot fail.
pub fn act(state: &mut State<'_>, plan: Plan)
    requires { Prepared plan (lent state.old) }
    ensures lists { SameLists state.old state.new }
    ensures acted { Acted plan (lent state.old) (lent state.new) }
{
    match plan {
        Plan::Stay | Plan::List | Plan::ListBack => {}
        Plan::Raise(slot) => {
            let head = state.head;
            state.head = list::move_front(head, &mut state.links, slot);
        }
        Plan::Set { slot, value } => store::set_value(state.fields.values, slot, value),
        Plan::Renew { slot, value } => {
            store::set_value(state.fields.values, slot, value);
            let head = state.head;
            state.head = list::move_front(head, &mut state.links, slot);
        }
        Plan::Drop(slot) => store::remove(state, slot),
        Plan::Place { evict, row } => place(state, evict, row),
        Plan::Replace { slot, evict, row } => replace(state, slot, evict, row),
        Plan::Fit { evict, capacity } => fit(state, evict, capacity),
        Plan::Sweep(rule) => sweep::sweep(state, rule),
        Plan::Clear => store::empty(state),
    }
}

// Writes the rows that a plan hands out.
pub fn hand_out(view: &View<'_>, plan: Plan, rows: &mut Fields<'_>)
    requires { OfferedBy plan (seen view.now) (held rows.old) }
    ensures lists { SameRows rows.old rows.new }
    ensures handed { HandedOutBy plan (seen view.now) (held rows.old) (held rows.new) }
{
    let none = Slot(Head::NONE);
    match plan {
        Plan::Stay
        | Plan::Raise(_)
        | Plan::Set { .. }
        | Plan::Renew { .. }
        | Plan::Drop(_)
        | Plan::Clear => {}
        Plan::List => rows::write_all(view, rows),
        Plan::ListBack => rows::write_all_back(view, rows),
        Plan::Place { evict, .. } => rows::write_oldest(view, evict, none, rows),
        Plan::Replace { slot, evict, .. } => rows::write_oldest(view, evict, slot, rows),
        Plan::Fit { evict, .. } => rows::write_oldest(view, evict, none, rows),
        Plan::Sweep(rule) => rows::write_removed(view, rule, rows),
    }
}
