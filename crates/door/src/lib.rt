// Any call at the door: the state is inspected, and a call on a sound one is a step: it is decided, its rows are written, and the plan carried out.
#![tactic(auto)]

ghost use Rattle.std.specs.Prelude.{◌≡◌};
ghost use Rattle.state.specs.State.{held, lent, seen, SameLists, SameRows};
ghost use Rattle.plan.specs.States.{Sound};
ghost use Rattle.door.specs.Served.{Serves, Calls, Reads, Tells, is_reader, is_teller};
ghost use Rattle.door.specs.Within.{CallsWithin, TellsWithin};

use head::{Answer, Command, Form, Refusal};
use state::{Fields, State, View};

// Any call on a state that is known to be sound, with room for so many rows. What leaves is written before it goes.
fn step_within(
    state: &mut State<'_>,
    rows: &mut Fields<'_>,
    room: usize,
    command: Command,
) -> Answer
    requires { Sound (lent state.old) }
    ensures lists { SameLists state.old state.new }
    ensures row_lists { SameRows rows.old rows.new }
    ensures calls { CallsWithin command room (lent state.old) (lent state.new) (held rows.old) (held rows.new) result }
{
    let view = state.view();
    let decision = decide::decide(&view, room.min(rows.room()), command);
    act::hand_out(&view, decision.plan, rows);
    act::act(state, decision.plan);
    decision.answer
}

// Any call on a state that is known to be sound.
pub fn step(state: &mut State<'_>, rows: &mut Fields<'_>, command: Command) -> Answer
    requires { Sound (lent state.old) }
    ensures lists { SameLists state.old state.new }
    ensures row_lists { SameRows rows.old rows.new }
    ensures calls { Calls command (lent state.old) (lent state.new) (held rows.old) (held rows.new) result }
{
    let room = rows.room();
    step_within(state, rows, room, command)
}

// Any call with room for so many rows, whatever the numbers and lists are.
pub fn call_within(
    state: &mut State<'_>,
    rows: &mut Fields<'_>,
    room: usize,
    command: Command,
) -> Answer
    ensures lists { SameLists state.old state.new }
    ensures row_lists { SameRows rows.old rows.new }
    ensures calls { CallsWithin command room (lent state.old) (lent state.new) (held rows.old) (held rows.new) result }
{
    if !inspect::inspect(&state.view()) {
        return Answer::No(Refusal::Unsound);
    }
    step_within(state, rows, room, command)
}

// Any call, whatever the numbers and lists are.
pub fn call(state: &mut State<'_>, rows: &mut Fields<'_>, command: Command) -> Answer
    ensures lists { SameLists state.old state.new }
    ensures row_lists { SameRows rows.old rows.new }
    ensures calls { Calls command (lent state.old) (lent state.new) (held rows.old) (held rows.new) result }
{
    let room = rows.room();
    call_within(state, rows, room, command)
}

// A call for which no rows are lent.
pub fn serve(state: &mut State<'_>, command: Command) -> Answer
    ensures lists { SameLists state.old state.new }
    ensures serves { Serves command 0 (lent state.old) (lent state.new) result }
{
    let view = state.view();
    if !inspect::inspect(&view) {
        return Answer::No(Refusal::Unsound);
    }
    let decision = decide::decide(&view, 0, command);
    act::act(state, decision.plan);
    decision.answer
}

fn is_reader(form: Form) -> bool
    ensures { result ≡ is_reader form }
{
    matches!(form, Form::Reading)
}

// A call that only reads and hands out no row. Any other is refused with 8.
pub fn read(view: &View<'_>, command: Command) -> Answer
    ensures { Reads command (seen view.now) result }
{
    if !inspect::inspect(view) {
        return Answer::No(Refusal::Unsound);
    }
    if !is_reader(command.form()) {
        return Answer::No(Refusal::NotUnderstood);
    }
    decide::decide(view, 0, command).answer
}

fn is_teller(form: Form) -> bool
    ensures { result ≡ is_teller form }
{
    matches!(form, Form::Reading | Form::Listing)
}

// A call that only reads, listings with their rows included, with room for so many of them. Any other is refused with 8.
pub fn tell_within(view: &View<'_>, rows: &mut Fields<'_>, room: usize, command: Command) -> Answer
    ensures lists { SameRows rows.old rows.new }
    ensures tells { TellsWithin command room (seen view.now) (held rows.old) (held rows.new) result }
{
    if !inspect::inspect(view) {
        return Answer::No(Refusal::Unsound);
    }
    if !is_teller(command.form()) {
        return Answer::No(Refusal::NotUnderstood);
    }
    let decision = decide::decide(view, room.min(rows.room()), command);
    act::hand_out(view, decision.plan, rows);
    decision.answer
}

// A call that only reads, listings with their rows included. Any other is refused with 8.
pub fn tell(view: &View<'_>, rows: &mut Fields<'_>, command: Command) -> Answer
    ensures lists { SameRows rows.old rows.new }
    ensures tells { Tells command (seen view.now) (held rows.old) (held rows.new) result }
{
    let room = rows.room();
    tell_within(view, rows, room, command)
}
