// The script program: lines from standard input, answers to standard output. docs/SCRIPT.md has the lines.
#![tactic(auto)]

use std::io;

fn main(rt: HostRuntime) -> io::Result<()> {
    script_play::desk(&rt, &mut rt.stdin())
}
