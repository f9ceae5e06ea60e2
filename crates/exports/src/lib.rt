// What Rust and C link: opening, the calls that read, and every call, on lent lists of numbers. docs/LAYOUT.md has the layout of head, command and answer.
#![tactic(auto)]

ghost use Rattle.std.specs.Prelude.{◌≡◌, length};
ghost use Rattle.state.specs.State.{fields, state};
ghost use Rattle.layout.specs.Heads.{head_of};
ghost use Rattle.layout.specs.Commands.{command_in};
ghost use Rattle.exports.specs.Exchange.{kind_for, opened_number, opened_left, Opening, Reading, Calling};

use head::{Head, Refusal};
use state::{Fields, FieldsView, Links, LinksView, State, Table, View};

// The kind to open with: a number of none that exists where the head's list is too short for a head, as `open` takes it.
fn kind_for(kind: u32, room: usize) -> u32
    ensures { result ≡ kind_for kind room }
{
    if room < 9 { 2 } else { kind }
}

// Writes the head of a cache that was opened, and gives 0; or gives the refusal's number.
fn put_opened(list: &mut [u64], opened: Result<Head, Refusal>) -> u32
    ensures { (result ≡ opened_number opened) × (list.new ≡ opened_left list.old opened) }
{
    match opened {
        Ok(head) => {
            layout::put_head(list, head, 0);
            0
        }
        Err(why) => why.number(),
    }
}

// Opens a cache in lists that may hold anything. The answer is 0, or 1 with nothing written.
#[unsafe(no_mangle)]
pub extern "C" fn weavestall_open(
    kind: u32,
    capacity: u64,
    slots: u32,
    head: &mut [u64],
    codes: &mut [u64],
    stamps: &mut [u32],
    values: &mut [u64],
    weights: &mut [u64],
    next: &mut [u32],
    prev: &mut [u32],
    stack: &mut [u32],
    cells: &mut [u32],
) -> u32
    ensures { Opening kind capacity slots head.old head.new codes.old stamps.old values.old weights.old next.old prev.old stack.old cells.old codes.new stamps.new values.new weights.new next.new prev.new stack.new cells.new result }
{
    let mut fields = Fields {
        codes,
        stamps,
        values,
        weights,
    };
    let mut links = Links { next, prev, stack };
    let mut table = Table { cells };
    let mut state = State::bare(Head::fresh(kind, capacity, slots));
    state.exchange(&mut fields, &mut links, &mut table);
    let opened = opening::open(kind_for(kind, head.len()), capacity, slots, &mut state);
    state.exchange(&mut fields, &mut links, &mut table);
    put_opened(head, opened)
}

// A call that reads. The answer is 0 or the refusal's number; the answer's list has the rest, and the row lists the rows of a listing.
#[unsafe(no_mangle)]
pub extern "C" fn weavestall_read(
    head: &[u64],
    codes: &[u64],
    stamps: &[u32],
    values: &[u64],
    weights: &[u64],
    next: &[u32],
    prev: &[u32],
    stack: &[u32],
    cells: &[u32],
    row_codes: &mut [u64],
    row_stamps: &mut [u32],
    row_values: &mut [u64],
    row_weights: &mut [u64],
    command: &[u64],
    answer: &mut [u64],
) -> u32
    ensures { Reading (command_in command.now) (state (head_of head.now (length answer.old)) codes.now stamps.now values.now weights.now next.now prev.now stack.now cells.now) (fields row_codes.old row_stamps.old row_values.old row_weights.old) (fields row_codes.new row_stamps.new row_values.new row_weights.new) answer.old answer.new result }
{
    let view = View {
        head: layout::head_at(head, answer.len()),
        fields: FieldsView {
            codes,
            stamps,
            values,
            weights,
        },
        links: LinksView { next, prev, stack },
        cells,
    };
    let mut rows = Fields {
        codes: row_codes,
        stamps: row_stamps,
        values: row_values,
        weights: row_weights,
    };
    let said = door::tell(&view, &mut rows, layout::command_at(command));
    layout::put_answer(answer, said)
}

// Any call. The answer is 0 or the refusal's number; the answer's list has the rest, and the row lists what left the cache.
#[unsafe(no_mangle)]
pub extern "C" fn weavestall_call(
    head: &mut [u64],
    codes: &mut [u64],
    stamps: &mut [u32],
    values: &mut [u64],
    weights: &mut [u64],
    next: &mut [u32],
    prev: &mut [u32],
    stack: &mut [u32],
    cells: &mut [u32],
    row_codes: &mut [u64],
    row_stamps: &mut [u32],
    row_values: &mut [u64],
    row_weights: &mut [u64],
    command: &[u64],
    answer: &mut [u64],
) -> u32
    ensures { Calling (command_in command.now) (state (head_of head.old (length answer.old)) codes.old stamps.old values.old weights.old next.old prev.old stack.old cells.old) codes.new stamps.new values.new weights.new next.new prev.new stack.new cells.new (fields row_codes.old row_stamps.old row_values.old row_weights.old) (fields row_codes.new row_stamps.new row_values.new row_weights.new) head.old head.new answer.old answer.new result }
{
    let mut fields = Fields {
        codes,
        stamps,
        values,
        weights,
    };
    let mut links = Links { next, prev, stack };
    let mut table = Table { cells };
    let mut state = State::bare(layout::head_at(head, answer.len()));
    state.exchange(&mut fields, &mut links, &mut table);
    let mut rows = Fields {
        codes: row_codes,
        stamps: row_stamps,
        values: row_values,
        weights: row_weights,
    };
    let said = door::call(&mut state, &mut rows, layout::command_at(command));
    state.exchange(&mut fields, &mut links, &mut table);
    let number = layout::put_answer(answer, said);
    layout::put_head(head, state.head, number);
    number
}
