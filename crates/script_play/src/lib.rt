// The script program as a function: reads lines from a file, carries each out on one cache, and writes what it answers. docs/SCRIPT.md has the lines.
#![tactic(auto)]

ghost use Rattle.std.specs.Prelude.{◌≡◌, ◌≤◌, length, IfOk};
ghost use Rattle.head.specs.Fresh.{fresh_head};
ghost use Rattle.state.specs.State.{held, lent};
ghost use Rattle.script_play.specs.Cutting.{line_end, next_line};
ghost use Rattle.script_play.specs.Playing.{Plays, Played, handed};

use head::Head;
use state::{Fields, Links, State};
use std::io;
use std::io::Read;

// Where the line that begins at `from` ends: at the next newline, or at the end of the input.
fn line_end(input: &[u8], from: usize, n: usize) -> usize
    requires { (from ≤ n) × (n ≤ length input.now) }
    ensures { result ≡ line_end input.now from n }
{
    let rest = &input[from..n];
    let newline = rest.iter().position(|byte| *byte == b'\n');
    from + newline.unwrap_or(rest.len())
}

// Where the next line begins; at the end of the input where nothing can be written any more.
fn next_line(written: bool, to: usize, n: usize) -> usize
    requires { (to ≤ n) × (n ≤ 32768) }
    ensures { result ≡ next_line written to n }
{
    if written { to + 1 } else { n }
}

// Carries out the lines of the input, one after another, until one's answer cannot be written, and says whether every answer was written. Before the
// first opening the head describes no cache. The input's length goes beside it: `Played`, which docs/PROOFS.md names, speaks of the first n bytes.
fn play(
    rt: &impl Print,
    input: &[u8],
    n: usize,
    state: &mut State<'_>,
    rows: &mut Fields<'_>,
    out: &mut [u8],
) -> bool
    requires unopened { state.old.head ≡ fresh_head 0 0 0 }
    requires plays { Plays input.now n (held rows.old) out.old }
    ensures { Played input.now n (handed (lent state.old) (held rows.old) out.old) (handed (lent state.new) (held rows.new) out.new) result }
{
    let mut written = true;
    let mut from: usize = 0;
    // It goes on by `next_line`, which docs/PROOFS.md names; a cut into all lines would not stop at an answer that cannot be written.
    while from < n {
        let to = line_end(input, from, n);
        let done = script_turn::take(&input[from..to], state, rows, out);
        written = rt.write_all(&out[..done.size]).is_ok();
        from = next_line(written, to, n);
    }
    written
}

// Reads until the buffer is full or the input ends, and answers how many bytes it put at the start of the buffer.
fn read_full(source: &mut impl Read, buffer: &mut [u8]) -> io::Result<usize>
    ensures { IfOk result (λ n. n ≤ length buffer.new) }
{
    let mut done: usize = 0;
    // A source may give fewer bytes than asked, and `read_to_end` wants a Vec: 01 asks for fixed memory.
    while done < buffer.len() {
        let n = source.read(&mut buffer[done..])?;
        if n == 0 {
            break;
        }
        done += n;
    }
    Ok(done)
}

// Plays what a source holds on a cache of at most 256 slots. An input longer than 32,768 bytes writes only `no 8`.
// An error says that the source could not be read, or that this `no 8` could not be written.
pub fn desk(rt: &impl Print, source: &mut impl Read) -> io::Result<()> {
    let mut input = [0u8; 32769];
    let n = read_full(source, &mut input)?;
    if 32768 < n {
        return rt.write_all(b"no 8\n");
    }
    // Before the first opening the head describes no cache.
    let mut state = State {
        head: Head::fresh(0, 0, 0),
        fields: Fields {
            codes: &mut [0; 256],
            stamps: &mut [0; 256],
            values: &mut [0; 256],
            weights: &mut [0; 256],
        },
        links: Links {
            next: &mut [Head::NONE; 256],
            prev: &mut [Head::NONE; 256],
            stack: &mut [Head::NONE; 256],
        },
        cells: &mut [Head::NONE; 512],
    };
    let mut rows = Fields {
        codes: &mut [0; 256],
        stamps: &mut [0; 256],
        values: &mut [0; 256],
        weights: &mut [0; 256],
    };
    // The lines of 256 rows, and a closing line.
    let mut out = [0u8; 33024];
    play(rt, &input, n, &mut state, &mut rows, &mut out);
    Ok(())
}
