// What Rust and C link: the three functions of crate exports as symbols of a static library. A list is a pointer and then a length. Each function calls the one of
// its name and promises the same; docs/LAYOUT.md has the layout of head, command and answer.
#![tactic(auto)]

ghost use Rattle.std.specs.Prelude.{length};
ghost use Rattle.state.specs.State.{fields, state};
ghost use Rattle.layout.specs.Heads.{head_of};
ghost use Rattle.layout.specs.Commands.{command_in};
ghost use Rattle.exports.specs.Exchange.{Opening, Reading, Calling};

// Opens a cache in lists that may hold anything. The answer is 0, or 1 with nothing written.
#[unsafe(no_mangle)]
pub extern "C" fn weavestall_open(
    kind: u32,
    capacity: u64,
    slots: u32,
    head: &mut [u64],
    codes: &mut [u64],
    stamps: &mut [u32],
    values: &mut [u64],
    weights: &mut [u64],
    next: &mut [u32],
    prev: &mut [u32],
    stack: &mut [u32],
    cells: &mut [u32],
) -> u32
    ensures { Opening kind capacity slots head.old head.new codes.old stamps.old values.old weights.old next.old prev.old stack.old cells.old codes.new stamps.new values.new weights.new next.new prev.new stack.new cells.new result }
{
    exports::weavestall_open(
        kind, capacity, slots, head, codes, stamps, values, weights, next, prev, stack, cells,
    )
}

// A call that reads. The answer is 0 or the refusal's number; the answer's list has the rest, and the row lists the rows of a listing.
#[unsafe(no_mangle)]
pub extern "C" fn weavestall_read(
    head: &[u64],
    codes: &[u64],
    stamps: &[u32],
    values: &[u64],
    weights: &[u64],
    next: &[u32],
    prev: &[u32],
    stack: &[u32],
    cells: &[u32],
    row_codes: &mut [u64],
    row_stamps: &mut [u32],
    row_values: &mut [u64],
    row_weights: &mut [u64],
    command: &[u64],
    answer: &mut [u64],
) -> u32
    ensures { Reading (command_in command.now) (state (head_of head.now (length answer.old)) codes.now stamps.now values.now weights.now next.now prev.now stack.now cells.now) (fields row_codes.old row_stamps.old row_values.old row_weights.old) (fields row_codes.new row_stamps.new row_values.new row_weights.new) answer.old answer.new result }
{
    exports::weavestall_read(
        head,
        codes,
        stamps,
        values,
        weights,
        next,
        prev,
        stack,
        cells,
        row_codes,
        row_stamps,
        row_values,
        row_weights,
        command,
        answer,
    )
}

// Any call. The answer is 0 or the refusal's number; the answer's list has the rest, and the row lists what left the cache.
#[unsafe(no_mangle)]
pub extern "C" fn weavestall_call(
    head: &mut [u64],
    codes: &mut [u64],
    stamps: &mut [u32],
    values: &mut [u64],
    weights: &mut [u64],
    next: &mut [u32],
    prev: &mut [u32],
    stack: &mut [u32],
    cells: &mut [u32],
    row_codes: &mut [u64],
    row_stamps: &mut [u32],
    row_values: &mut [u64],
    row_weights: &mut [u64],
    command: &[u64],
    answer: &mut [u64],
) -> u32
    ensures { Calling (command_in command.now) (state (head_of head.old (length answer.old)) codes.old stamps.old values.old weights.old next.old prev.old stack.old cells.old) codes.new stamps.new values.new weights.new next.new prev.new stack.new cells.new (fields row_codes.old row_stamps.old row_values.old row_weights.old) (fields row_codes.new row_stamps.new row_values.new row_weights.new) head.old head.new answer.old answer.new result }
{
    exports::weavestall_call(
        head,
        codes,
        stamps,
        values,
        weights,
        next,
        prev,
        stack,
        cells,
        row_codes,
        row_stamps,
        row_values,
        row_weights,
        command,
        answer,
    )
}
