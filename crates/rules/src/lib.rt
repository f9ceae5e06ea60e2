// Whether a rule of `retain` keeps an entry.
#![tactic(auto)]

ghost use Rattle.std.specs.Prelude.{◌≡◌};
ghost use Rattle.model.specs.Desk.{passes as passing, keeps as keeping};

use head::{Row, Rule};

// Whether an entry passes a rule, its "not" apart.
fn passes(rule: Rule, row: Row) -> bool
    ensures { result ≡ passing rule row }
{
    let range = rule.low..=rule.high;
    match rule.number {
        Rule::CODE => range.contains(&row.code.0),
        Rule::VALUE => range.contains(&row.value),
        Rule::STAMP => rule.low <= u64::from(row.stamp),
        _ => row.weight <= rule.high,
    }
}

// Whether a rule keeps an entry.
pub fn keeps(rule: Rule, row: Row) -> bool
    ensures { result ≡ keeping rule row }
{
    passes(rule, row) != rule.not
}
