// The replay: reads the recorded answers of the crate clru, carries out every recorded line by the public calls, and counts
// where the text of the answer and the state after it are what was recorded. compare/README.md has the format.
#![tactic(auto)]

ghost use Rattle.std.specs.Prelude.{suc, ◌*◌, ◌<◌, ◌≤◌, ◌≡◌, length, IfOk};
ghost use Rattle.state.specs.State.{held};
ghost use Rattle.door.specs.Served.{shortest};
ghost use Rattle.script_write.specs.Lines.{most_line};

use head::Head;
use script_digits::Text;
use state::{Fields, Links, State, View};
use std::io;
use std::io::Read;

// How many lines agreed, calls and openings apart, how many did not, and at how many the crate panics.
#[derive(Clone, Copy, Default)]
pub struct Tally {
    pub calls: u32,
    pub openings: u32,
    pub differ: u32,
    pub panics: u32,
}

impl Tally {
    // Counts a script line, by what is recorded of it.
    fn count(&mut self, line: &[u8], recorded: &[u8], agreed: bool) {
        if recorded.starts_with(b"panic\n") {
            self.panics = self.panics.saturating_add(1);
        } else if !agreed {
            self.differ = self.differ.saturating_add(1);
        } else if line.starts_with(b"open ") {
            self.openings = self.openings.saturating_add(1);
        } else {
            self.calls = self.calls.saturating_add(1);
        }
    }
}

// What stands at a place, 0 past the end.
fn at<T: Copy + Default + Drop>(list: &[T], i: u32) -> T {
    match list.get(i as usize) {
        Some(x) => *x,
        None => T::default(),
    }
}

// Writes a byte behind a text; nothing where there is no room.
fn put(text: &mut Text<'_>, byte: u8) {
    if text.end < text.buffer.len() {
        text.put(byte);
    }
}

// Writes a space and a number behind a text. Where fewer than 128 bytes are left the text ends with the buffer, whatever stands there.
fn number(text: &mut Text<'_>, n: u64) {
    if text.buffer.len().saturating_sub(text.end) < 128 {
        text.end = text.buffer.len();
    } else {
        text.put(b' ');
        text.number(n);
    }
}

// Writes the state line at the beginning of the buffer: the weight, `top`, the entries front to back, each behind its slot, and the stack, bottom first. It answers
// how long the line is.
fn state_line(view: &View<'_>, out: &mut [u8]) -> usize {
    let depth = view.head.depth.0;
    let head = view.head;
    let fields = &view.fields;
    let mut text = Text {
        buffer: out,
        end: 0,
    };
    put(&mut text, b'=');
    number(&mut text, head.weight);
    number(&mut text, u64::from(head.top.0));
    number(&mut text, u64::from(head.live));
    let mut slot = head.front.0;
    for _ in 0..head.live {
        number(&mut text, u64::from(slot));
        number(&mut text, at(fields.codes, slot));
        number(&mut text, u64::from(at(fields.stamps, slot)));
        number(&mut text, at(fields.values, slot));
        number(&mut text, at(fields.weights, slot));
        slot = at(view.links.next, slot);
    }
    number(&mut text, u64::from(depth));
    for slot in view.links.stack.iter().take(depth as usize) {
        number(&mut text, u64::from(*slot));
    }
    put(&mut text, b'\n');
    text.end
}

// Whether the answer, which takes so many bytes of the buffer, and the state line behind it are what is recorded. The buffer is written anew.
fn agrees(recorded: &[u8], size: usize, view: &View<'_>, out: &mut [u8]) -> bool
    requires { size ≤ length out.old }
{
    let Some(rest) = recorded.strip_prefix(&out[..size]) else {
        return false;
    };
    let end = state_line(view, out);
    out.get(..end).is_some_and(|line| rest.starts_with(line))
}

// The first line, and what stands behind its newline.
fn first_line(text: &[u8]) -> (&[u8], &[u8])
    ensures { length result.1.now ≤ length text.now }
{
    match text.iter().position(|byte| *byte == b'\n') {
        Some(end) => (&text[..end], &text[end + 1..]),
        None => (text, &[]),
    }
}

// What stands behind the next newline and mark of a script line; nothing where there is none.
fn next_line(text: &[u8]) -> &[u8]
    requires { 0 < length text.now }
    ensures { length result.now < length text.now }
{
    for i in 0..text.len() {
        if let Some(next) = text[i..].strip_prefix(b"\n> ") {
            return next;
        }
    }
    &[]
}

// Carries out the script lines of the input, one after another, and counts. Behind its first n bytes, which are the lines, the input is zeros.
fn play(
    input: &[u8],
    n: usize,
    state: &mut State<'_>,
    rows: &mut Fields<'_>,
    out: &mut [u8],
) -> Tally
    requires inside { n ≤ length input.now }
    requires room { suc (shortest (held rows.old)) * most_line ≤ length out.old }
{
    let mut tally = Tally::default();
    // Behind the first `> `.
    let mut rest = input[..n].get(2..).unwrap_or(&[]);
    while !rest.is_empty() {
        let (line, recorded) = first_line(rest);
        let done = script_turn::take(line, state, rows, out);
        // To the end of its zeros: a state line that ends with the buffer is compared with them too.
        let behind = &input[n - recorded.len()..];
        let agreed = agrees(behind, done.size, &state.view(), out);
        tally.count(line, recorded, agreed);
        rest = next_line(rest);
    }
    tally
}

// Reads until the buffer is full or the input ends, and answers how many bytes it put at the start of the buffer.
fn read_full(source: &mut impl Read, buffer: &mut [u8]) -> io::Result<usize>
    ensures { IfOk result (λ n. n ≤ length buffer.new) }
{
    let mut done: usize = 0;
    // A source may give fewer bytes than asked, and `read_to_end` wants a Vec, for which memory may run out.
    while done < buffer.len() {
        let n = source.read(&mut buffer[done..])?;
        if n == 0 {
            break;
        }
        done += n;
    }
    Ok(done)
}

// Room for the recorded list. The ensures has only its length, so that no proof meets that many zeros.
fn space() -> [u8; 1400000]
    ensures { 1400000 ≡ length result }
{
    [0; 1400000]
}

fn main(rt: HostRuntime) -> io::Result<()> {
    let mut input = space();
    let n = read_full(&mut rt.stdin(), &mut input)?;
    // Before the first opening the head describes no cache.
    let mut state = State {
        head: Head::fresh(0, 0, 0),
        fields: Fields {
            codes: &mut [0; 4096],
            stamps: &mut [0; 4096],
            values: &mut [0; 4096],
            weights: &mut [0; 4096],
        },
        links: Links {
            next: &mut [Head::NONE; 4096],
            prev: &mut [Head::NONE; 4096],
            stack: &mut [Head::NONE; 4096],
        },
        cells: &mut [Head::NONE; 8192],
    };
    let mut rows = Fields {
        codes: &mut [0; 256],
        stamps: &mut [0; 256],
        values: &mut [0; 256],
        weights: &mut [0; 256],
    };
    // The lines of 256 rows, and a closing line.
    let mut out = [0u8; 33024];
    let tally = play(&input, n, &mut state, &mut rows, &mut out);
    println!(rt; "{n} bytes read")?;
    println!(rt; "{} calls agree", tally.calls)?;
    println!(rt; "{} openings agree", tally.openings)?;
    println!(rt; "{} differ", tally.differ)?;
    println!(rt; "{} left out where the crate panics", tally.panics)
}
