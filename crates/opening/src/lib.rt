// Opening a cache, in lists that may hold anything.
#![tactic(auto)]

ghost use Rattle.head.specs.Fresh.{fresh_head};
ghost use Rattle.state.specs.State.{lent, SameLists};
ghost use Rattle.opening.specs.Begun.{Opens, headed, head_left};
ghost use Rattle.std.specs.Prelude.{◌≡◌};

use head::{Head, Refusal};
use state::State;

// Opens a cache in lists that may hold anything: what N slots need is made empty, and the state has the fresh head. Refused, all stays as it was. The kind
// is a number: 01 refuses any but the two with 1.
pub fn open(kind: u32, capacity: u64, slots: u32, state: &mut State<'_>) -> Result<Head, Refusal>
    ensures lists { SameLists state.old state.new }
    ensures head { state.new.head ≡ head_left state.old.head result }
    ensures opens { Opens kind capacity slots (headed (fresh_head kind capacity slots) (lent state.old)) (headed (fresh_head kind capacity slots) (lent state.new)) result }
{
    let view = state.view();
    if !Head::allows(kind, capacity, slots) || !store::has_room(slots, &view) {
        return Err(Refusal::NotOpened);
    }
    state.head = Head::fresh(kind, capacity, slots);
    store::empty(state);
    Ok(state.head)
}
