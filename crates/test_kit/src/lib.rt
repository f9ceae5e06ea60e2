// What the programs that drive the layers share: draws, counts, the list's links, and a plain list to compare them with.
#![tactic(auto)]

ghost use Rattle.std.specs.Prelude.{◌<◌};

use std::fmt;

pub mod line;
pub mod links;

// The next of a run of numbers below 65536 that takes each of them once.
pub fn draw(x: u64) -> u64
    ensures { result < 65536 }
{
    (x % 65536 * 25173 + 13849) % 65536
}

// The next number of a generator (xorshift).
pub fn shaken(seed: u64) -> u64 {
    let a = seed ^ (seed << 13);
    let b = a ^ (a >> 7);
    b ^ (b << 17)
}

// How often something was met.
#[derive(Clone, Copy, Default)]
pub struct Count(u64);

impl Count {
    pub fn more(&mut self) {
        self.0 = self.0.saturating_add(1);
    }
}

impl fmt::Display for Count {
    fn fmt<W: fmt::Write>(&self, f: &mut fmt::Formatter<W>) -> fmt::Result {
        write!(f, "{}", self.0)
    }
}
