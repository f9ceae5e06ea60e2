// Changes sound states number by number, and holds the library's inspection to a plain check of soundness that is written from the paper alone.
#![tactic(auto)]

mod damage;
mod samples;
mod sheet;
mod sound;

use damage::Trial;
use samples::SAMPLES;
use sheet::{State, Tail};
use std::io;

// Runs the first so many states, each with two kinds of tail, with so many draws of two numbers, and writes how it went.
pub fn drive(rt: &impl Print, states: u64, pairs: u64) -> io::Result<()> {
    let mut trial = Trial::new();
    for sample in SAMPLES.iter().take(states as usize) {
        trial.state(&State::of(sample, Tail::Blank), pairs);
        trial.state(&State::of(sample, Tail::Sevens), pairs);
    }
    println!(rt; "{}", trial.tally)
}

// The long run: every state, 20,000 draws of two numbers for each.
fn main(rt: HostRuntime) -> io::Result<()> {
    drive(&rt, 16, 20000)
}
