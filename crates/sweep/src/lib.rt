// The sweep: entries that a rule does not keep leave, front to back.
#![tactic(auto)]

ghost use Rattle.state.specs.State.{lent, SameLists};
ghost use Rattle.store.specs.State.{Sound};
ghost use Rattle.store.specs.Acts.{Occupied};
ghost use Rattle.sweep.specs.Swept.{Judged, Swept};

use head::{Rule, Slot};
use state::State;

// Takes the entry in a slot out, unless it is kept.
fn judge(state: &mut State<'_>, slot: Slot, keep: bool)
    requires { Occupied (lent state.old) slot.0 }
    ensures lists { SameLists state.old state.new }
    ensures judged { Judged (lent state.old) (lent state.new) slot.0 keep }
{
    if !keep {
        store::remove(state, slot);
    }
}

// Takes out every entry that the rule does not keep, front to back; their slots go on the stack in that order.
pub fn sweep(state: &mut State<'_>, rule: Rule)
    requires { Sound (lent state.old) }
    ensures lists { SameLists state.old state.new }
    ensures swept { Swept (lent state.old) (lent state.new) rule }
{
    let mut slot = state.head.front;
    for _ in 0..state.head.live {
        // Read before the slot may leave, when its link is gone.
        let behind = Slot(state.links.next[slot.0 as usize]);
        let row = state.fields.view().read(slot.0);
        judge(state, slot, rules::keeps(rule, row));
        slot = behind;
    }
}
