// Calls whose rows go to a list of records too: the call is made with no more rows lent than there are records, and its rows are copied.
#![tactic(auto)]

ghost use Rattle.state.specs.State.{held, lent, seen, viewed, SameLists, SameRows};
ghost use Rattle.records.specs.Saving.{Saved};
ghost use Rattle.records.specs.Into.{CallsInto, TellsInto};

use head::{Answer, Command, Row};
use state::{Fields, FieldsView, State, View};

// Copies the first rows of the four row lists into the records, in order. Where a list or the records hold fewer it says false and writes nothing.
pub fn save(records: &mut [Row], rows: &FieldsView<'_>, count: u32) -> bool
    ensures { Saved count (viewed rows.now) records.old records.new result }
{
    let n = count as usize;
    let fits = (n <= records.len())
        & (n <= rows.codes.len())
        & (n <= rows.stamps.len())
        & (n <= rows.values.len())
        & (n <= rows.weights.len());
    if fits {
        for i in 0..count {
            records[i as usize] = rows.read(i);
        }
    }
    fits
}

// Any call, its rows in the records too: refusal 6 counts what the records hold, and the shortest row list.
pub fn call(
    state: &mut State<'_>,
    rows: &mut Fields<'_>,
    records: &mut [Row],
    command: Command,
) -> Answer
    ensures lists { SameLists state.old state.new }
    ensures row_lists { SameRows rows.old rows.new }
    ensures calls { CallsInto command (lent state.old) (lent state.new) (held rows.old) (held rows.new) records.old records.new result }
{
    let answer = door::call_within(state, rows, records.len(), command);
    save(records, &rows.view(), answer.rows());
    answer
}

// A listing, its rows in the records too.
pub fn tell(view: &View<'_>, rows: &mut Fields<'_>, records: &mut [Row], command: Command) -> Answer
    ensures lists { SameRows rows.old rows.new }
    ensures tells { TellsInto command (seen view.now) (held rows.old) (held rows.new) records.old records.new result }
{
    let answer = door::tell_within(view, rows, records.len(), command);
    save(records, &rows.view(), answer.rows());
    answer
}
