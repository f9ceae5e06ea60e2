// The damages to a state, and what inspection and the plain check say of each.
use crate::sheet::{List, MOST_CAPACITY, NONE, PLACES, State, UNUSED};
use std::fmt;
use test_kit::{Count, shaken};

// What a number becomes.
#[derive(Clone, Copy)]
enum Way {
    Zero,
    One,
    // One more, one less.
    More,
    Less,
    // The slot count, and the last slot.
    Slots,
    LastSlot,
    Unused,
    NoSlot,
    // The numbers behind it, before it, and two behind it.
    Behind,
    Before,
    SecondBehind,
    MostCapacity,
    PastCapacity,
}

impl Way {
    const ALL: [Way; 13] = [
        Way::Zero,
        Way::One,
        Way::More,
        Way::Less,
        Way::Slots,
        Way::LastSlot,
        Way::Unused,
        Way::NoSlot,
        Way::Behind,
        Way::Before,
        Way::SecondBehind,
        Way::MostCapacity,
        Way::PastCapacity,
    ];

    fn drawn(seed: u64) -> Way {
        Way::ALL[seed as usize % Way::ALL.len()]
    }

    // What the number at a place becomes.
    fn of(self, state: &State, place: usize) -> u64 {
        let number = state.number(place);
        let slots = u64::from(state.head.slots);
        match self {
            Way::Zero => 0,
            Way::One => 1,
            Way::More => number.wrapping_add(1),
            Way::Less => number.wrapping_sub(1),
            Way::Slots => slots,
            Way::LastSlot => slots.wrapping_sub(1),
            Way::Unused => u64::from(UNUSED),
            Way::NoSlot => u64::from(NONE),
            Way::Behind => state.number(place.saturating_add(1)),
            Way::Before => place
                .checked_sub(1)
                .map_or(0, |before| state.number(before)),
            Way::SecondBehind => state.number(place.saturating_add(2)),
            Way::MostCapacity => MOST_CAPACITY,
            Way::PastCapacity => MOST_CAPACITY + 1,
        }
    }
}

// What is counted.
#[derive(Clone, Copy, Default)]
pub struct Tally {
    states: Count,
    // States that one of the two calls unsound.
    wrong: Count,
    // Damages of each kind.
    cuts: Count,
    singles: Count,
    doubles: Count,
    // What the two say of them.
    both_sound: Count,
    both_unsound: Count,
    differ: Count,
}

impl fmt::Display for Tally {
    fn fmt<W: fmt::Write>(&self, f: &mut fmt::Formatter<W>) -> fmt::Result {
        writeln!(f, "states {}", self.states)?;
        writeln!(f, "states that one of the two calls unsound {}", self.wrong)?;
        writeln!(
            f,
            "one list lent to what is needed, one less, and empty {}",
            self.cuts
        )?;
        writeln!(f, "one number changed {}", self.singles)?;
        writeln!(f, "two numbers changed {}", self.doubles)?;
        writeln!(f, "both say sound {}", self.both_sound)?;
        writeln!(f, "both say unsound {}", self.both_unsound)?;
        write!(f, "disagreements {}", self.differ)
    }
}

// A run over states: the draw to go on from, and the counts.
#[derive(Drop)]
pub struct Trial {
    seed: u64,
    pub tally: Tally,
}

impl Trial {
    pub fn new() -> Trial {
        Trial {
            seed: 88172645463325252,
            tally: Tally::default(),
        }
    }

    // A state, which both must call sound, and then every damage to it, with so many draws of two numbers.
    pub fn state(&mut self, state: &State, pairs: u64) {
        self.tally.states.more();
        if !(state.inspected() && state.sound()) {
            self.tally.wrong.more();
        }
        self.cuts(state);
        self.singles(state);
        for _ in 0..pairs {
            self.double(state);
        }
    }

    // Asks both about a damaged state.
    fn compare(&mut self, state: &State) {
        match (state.inspected(), state.sound()) {
            (true, true) => self.tally.both_sound.more(),
            (false, false) => self.tally.both_unsound.more(),
            _ => self.tally.differ.more(),
        }
    }

    // Each list lent as long as the slots need, one shorter, and empty.
    fn cuts(&mut self, state: &State) {
        for list in List::ALL {
            let needed = list.needed(state.head.slots);
            for length in [needed, needed.saturating_sub(1), 0] {
                self.compare(&State {
                    cut: Some((list, length)),
                    ..*state
                });
                self.tally.cuts.more();
            }
        }
    }

    // Each needed number changed in each way.
    fn singles(&mut self, state: &State) {
        for place in (0..State::NUMBERS).filter(|place| state.needs(*place)) {
            for way in Way::ALL {
                self.single(state, place, way);
            }
        }
    }

    fn single(&mut self, state: &State, place: usize, way: Way) {
        let mut hurt = *state;
        hurt.set(place, way.of(state, place));
        if hurt.number(place) != state.number(place) {
            self.compare(&hurt);
            self.tally.singles.more();
        }
    }

    // Two needed numbers, drawn at random: swapped, or one more and one less, or each changed in a way of its own.
    fn double(&mut self, state: &State) {
        let seed = shaken(self.seed);
        self.seed = seed;
        let i = drawn_place(state, seed >> 4);
        let j = drawn_place(state, seed >> 24);
        if i == j {
            return;
        }
        let (a, b) = match (seed >> 60) % 4 {
            0 => (state.number(j), state.number(i)),
            1 => (Way::More.of(state, i), Way::Less.of(state, j)),
            _ => (
                Way::drawn(seed >> 44).of(state, i),
                Way::drawn(seed >> 52).of(state, j),
            ),
        };
        let mut hurt = *state;
        hurt.set(i, a);
        hurt.set(j, b);
        if hurt.number(i) != state.number(i) && hurt.number(j) != state.number(j) {
            self.compare(&hurt);
            self.tally.doubles.more();
        }
    }
}

// A place whose number the slots need: one of the head's nine, or of the nine that each slot has in the lists, two cells among them. The lists stand behind
// the head, PLACES apart, and the cells last.
fn drawn_place(state: &State, seed: u64) -> usize {
    let slots = state.head.slots as usize;
    let drawn = (seed % (9 + 9 * slots as u64)) as usize;
    if drawn < 9 {
        return drawn;
    }
    let needed = drawn - 9;
    if needed < 7 * slots {
        9 + needed / slots * PLACES + needed % slots
    } else {
        9 + 7 * PLACES + (needed - 7 * slots)
    }
}
