// What is decided before anything changes: an answer, and a plan that says what to do and which rows to hand out.
#![tactic(auto)]

ghost use Rattle.std.specs.Prelude.{◌≡◌};
ghost use Rattle.plan.specs.Plans.{said, denied};

use head::{Answer, Refusal, Row, Rule, Slot};

// What is done to a cache. Entries are named by their slots.
#[derive(Debug, Clone, Copy, PartialEq, Eq)]
pub enum Plan {
    Stay,
    // Nothing changes, and all entries are handed out, front to back or back to front.
    List,
    ListBack,
    // The entry moves to the front.
    Raise(Slot),
    // The entry takes a value.
    Set { slot: Slot, value: u64 },
    // The entry takes a value and moves to the front.
    Renew { slot: Slot, value: u64 },
    // The entry leaves.
    Drop(Slot),
    // So many leave from the back and are handed out; then the row stands in front.
    Place { evict: u32, row: Row },
    // The same after the entry in the slot has left, which is not handed out.
    Replace { slot: Slot, evict: u32, row: Row },
    // So many leave from the back and are handed out; then the capacity is set.
    Fit { evict: u32, capacity: u64 },
    // Those that the rule does not keep leave, front to back, and are handed out.
    Sweep(Rule),
    Clear,
}

#[derive(Debug, Clone, Copy, PartialEq, Eq)]
pub struct Decision {
    pub answer: Answer,
    pub plan: Plan,
}

impl Decision {
    // An answer that changes nothing and hands out nothing.
    pub fn say(answer: Answer) -> Decision
        ensures { result ≡ said answer }
    {
        Decision {
            answer,
            plan: Plan::Stay,
        }
    }

    // A refusal that leaves all untouched.
    pub fn refuse(refusal: Refusal) -> Decision
        ensures { result ≡ denied refusal }
    {
        Decision::say(Answer::No(refusal))
    }
}
