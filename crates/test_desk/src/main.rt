// The script program on inputs at the edges: calls before `open`, exactly 32,768 bytes, one more, empty lines, nothing at all.
#![tactic(auto)]

use std::fs::File;
use std::io;
use std::rt::Files;

// Plays a file of data/, under its name.
fn play_file(rt: &(impl Files + Print), name: &str) -> io::Result<()> {
    println!(rt; "= {name}")?;
    let Ok(mut file) = File::open(rt, name) else {
        return println!(rt; "missing");
    };
    script_play::desk(rt, &mut file)
}

fn main(rt: HostRuntime) -> io::Result<()> {
    for name in ["full", "over", "short", "empty"] {
        play_file(&rt, name)?;
    }
    Ok(())
}
