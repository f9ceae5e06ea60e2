// A line of the script to what it says.
#![tactic(auto)]

ghost use Rattle.std.specs.Prelude.{◌≡◌, ◌≤◌, ◌++◌, ◌∷◌, [], suc, length, Some, SomeIff, MatchOption};
ghost use Rattle.script_read.specs.Words.{words_of, words_past};
ghost use Rattle.script_read.specs.Numerals.{most_narrow, number_of, with_one, numbers_of};
ghost use Rattle.script_read.specs.Grammar.{call_named, nought_of, one_of, two_of, three_of, four_of, call_of, kind_line, open_of, keeping, bound_line, range_line, rule_line, retain_of, understood};

use head::{Code, Command, Head, Rule};

// What a line says.
#[derive(Debug, Clone, Copy, PartialEq, Eq)]
pub enum Line {
    Open {
        // A number, as `open` takes it.
        kind: u32,
        capacity: u64,
        slots: u32,
    },
    Call(Command),
}

// The words behind a word, where each is a number and there are no more than four.
#[derive(Clone, Copy, Debug, PartialEq, Eq)]
pub enum Numbers {
    Nought,
    One(u64),
    Two(u64, u64),
    Three(u64, u64, u64),
    Four(u64, u64, u64, u64),
}

impl Numbers {
    fn with(self, x: u64) -> Option<Numbers>
        ensures { result ≡ with_one (Some self) x }
    {
        match self {
            Numbers::Nought => Some(Numbers::One(x)),
            Numbers::One(a) => Some(Numbers::Two(a, x)),
            Numbers::Two(a, b) => Some(Numbers::Three(a, b, x)),
            Numbers::Three(a, b, c) => Some(Numbers::Four(a, b, c, x)),
            Numbers::Four(..) => None,
        }
    }
}

// The first word of a line, and what is behind it: nothing, or a space and the other words.
fn first_word(line: &[u8]) -> (&[u8], &[u8])
    ensures parts { line.now ≡ result.0.now ++ result.1.now }
    ensures words { words_of line.now ≡ result.0.now ∷ words_past result.1.now }
{
    let space = line.iter().position(|byte| *byte == b' ');
    line.split_at(space.unwrap_or(line.len()))
}

// The next word of what is behind a word, and what is behind that.
fn next_word(rest: &[u8]) -> Option<(&[u8], &[u8])>
    ensures words { MatchOption result (words_past rest.now ≡ []) (λ p. words_past rest.now ≡ p.0.now ∷ words_past p.1.now) }
    ensures shorter { MatchOption result (rest.now ≡ []) (λ p. suc (length p.1.now) ≤ length rest.now) }
{
    let (_, line) = rest.split_first()?;
    Some(first_word(line))
}

// A word as a number of 64 bits.
fn read_number(word: &[u8]) -> Option<u64>
    ensures { result ≡ number_of word.now }
{
    if word.is_empty() {
        return None;
    }
    let mut value: u64 = 0;
    for byte in word {
        if !byte.is_ascii_digit() {
            return None;
        }
        let digit = u64::from(*byte - b'0');
        value = value.checked_mul(10)?.checked_add(digit)?;
    }
    Some(value)
}

// The words behind a word as numbers.
fn read_numbers(mut rest: &[u8]) -> Option<Numbers>
    ensures { result ≡ numbers_of (words_past rest.now) }
{
    let mut numbers = Numbers::Nought;
    // It goes on while there is a word; no turn is counted.
    while let Some((word, behind)) = next_word(rest) {
        numbers = numbers.with(read_number(word)?)?;
        rest = behind;
    }
    Some(numbers)
}

// A number that has to fit 32 bits.
fn narrow(n: u64) -> Option<u32>
    ensures { SomeIff result (n ≤ most_narrow) n }
{
    u32::try_from(n).ok()
}

// The call whose keyword the word is.
fn call_named(word: &[u8], choices: &[(&[u8], Command)]) -> Option<Line>
    ensures { result ≡ call_named word.now choices.now }
{
    let (_, command) = choices.iter().find(|(key, _)| word == *key)?;
    Some(Line::Call(*command))
}

// A word alone.
fn nought(word: &[u8]) -> Option<Line>
    ensures { result ≡ nought_of word.now }
{
    call_named(
        word,
        &[
            (b"is_empty", Command::IsEmpty),
            (b"is_full", Command::IsFull),
            (b"len", Command::Len),
            (b"capacity", Command::Capacity),
            (b"weight", Command::Weight),
            (b"front", Command::Front),
            (b"back", Command::Back),
            (b"pop_front", Command::PopFront),
            (b"pop_back", Command::PopBack),
            (b"list", Command::List),
            (b"list_back", Command::ListBack),
            (b"clear", Command::Clear),
        ],
    )
}

// A word with one number.
fn one(word: &[u8], a: u64) -> Option<Line>
    ensures { result ≡ one_of word.now a }
{
    let code = Code(a);
    call_named(
        word,
        &[
            (b"get", Command::Get(code)),
            (b"peek", Command::Peek(code)),
            (b"contains", Command::Contains(code)),
            (b"pop", Command::Pop(code)),
            (b"front_mut", Command::FrontMut(a)),
            (b"back_mut", Command::BackMut(a)),
            (b"resize", Command::Resize(a)),
        ],
    )
}

// A word with two numbers.
fn two(word: &[u8], a: u64, value: u64) -> Option<Line>
    ensures { result ≡ two_of word.now a value }
{
    let code = Code(a);
    call_named(
        word,
        &[
            (b"get_mut", Command::GetMut { code, value }),
            (b"peek_mut", Command::PeekMut { code, value }),
        ],
    )
}

// A word with three numbers, the second of which is a stamp.
fn three(word: &[u8], a: u64, b: u64, value: u64) -> Option<Line>
    ensures { result ≡ three_of word.now a b value }
{
    let code = Code(a);
    let stamp = narrow(b)?;
    let put = Command::Put { code, stamp, value };
    let modify = Command::PutOrModify {
        code,
        stamp,
        amount: value,
    };
    call_named(word, &[(b"put", put), (b"put_or_modify", modify)])
}

// A word with four numbers, the second of which is a stamp.
fn four(word: &[u8], a: u64, b: u64, value: u64, weight: u64) -> Option<Line>
    ensures { result ≡ four_of word.now a b value weight }
{
    let code = Code(a);
    let stamp = narrow(b)?;
    let put = Command::PutWithWeight {
        code,
        stamp,
        value,
        weight,
    };
    let modify = Command::TryPutOrModify {
        code,
        stamp,
        amount: value,
        ceiling: weight,
    };
    call_named(word, &[(b"putw", put), (b"try_put_or_modify", modify)])
}

// A kind with a capacity and a slot count.
#[tactic(auto, using(crate::proofs::Reading::same_reads), unfolding(crate::specs::Grammar::kind_line, crate::specs::Grammar::narrow))]
fn kind_line(word: &[u8], capacity: u64, n: u64) -> Option<Line>
    ensures { result ≡ kind_line word.now capacity n }
{
    let slots = narrow(n)?;
    match word {
        b"plain" => Some(Line::Open {
            kind: Head::PLAIN,
            capacity,
            slots,
        }),
        b"weighed" => Some(Line::Open {
            kind: Head::WEIGHED,
            capacity,
            slots,
        }),
        _ => None,
    }
}

// What follows `open`.
#[tactic(auto, unfolding(crate::specs::Grammar::open_of, crate::specs::Grammar::open_numbers))]
fn open_line(rest: &[u8]) -> Option<Line>
    ensures { result ≡ open_of (words_past rest.now) }
{
    let (word, rest) = next_word(rest)?;
    match read_numbers(rest)? {
        Numbers::Two(capacity, n) => kind_line(word, capacity, n),
        _ => None,
    }
}

// `retain` by a rule of a number, negated or not, with its bounds.
fn keeping(number: u32, not: bool, low: u64, high: u64) -> Command
    ensures { result ≡ keeping number not low high }
{
    Command::Retain(Rule {
        number,
        not,
        low,
        high,
    })
}

// The word of a rule with one bound.
#[tactic(auto, using(crate::proofs::Reading::same_reads), unfolding(crate::specs::Grammar::bound_line, crate::specs::Grammar::narrow, crate::specs::Grammar::if_call))]
fn bound_line(word: &[u8], negated: bool, a: u64) -> Option<Line>
    ensures { result ≡ bound_line negated word.now a }
{
    match word {
        b"stamp" => {
            let low = u64::from(narrow(a)?);
            Some(Line::Call(keeping(Rule::STAMP, negated, low, 0)))
        }
        b"weight" => Some(Line::Call(keeping(Rule::WEIGHT, negated, 0, a))),
        _ => None,
    }
}

// The word of a rule with two bounds.
fn range_line(word: &[u8], negated: bool, low: u64, high: u64) -> Option<Line>
    ensures { result ≡ range_line negated word.now low high }
{
    let code = keeping(Rule::CODE, negated, low, high);
    let value = keeping(Rule::VALUE, negated, low, high);
    call_named(word, &[(b"code", code), (b"value", value)])
}

// A rule.
#[tactic(auto, unfolding(crate::specs::Grammar::rule_line, crate::specs::Grammar::rule_numbers))]
fn rule_line(rest: &[u8], negated: bool) -> Option<Line>
    ensures { result ≡ rule_line negated (words_past rest.now) }
{
    let (word, rest) = next_word(rest)?;
    match read_numbers(rest)? {
        Numbers::One(a) => bound_line(word, negated, a),
        Numbers::Two(a, b) => range_line(word, negated, a, b),
        _ => None,
    }
}

// What follows `retain`.
#[tactic(auto, using(crate::proofs::Reading::same_reads), unfolding(crate::specs::Grammar::retain_of))]
fn retain_line(rest: &[u8]) -> Option<Line>
    ensures { result ≡ retain_of (words_past rest.now) }
{
    let (word, behind) = next_word(rest)?;
    match word {
        b"not" => rule_line(behind, true),
        _ => rule_line(rest, false),
    }
}

// A word with what is behind it.
#[tactic(auto, unfolding(crate::specs::Grammar::call_of))]
fn call_line(word: &[u8], rest: &[u8]) -> Option<Line>
    ensures { result ≡ call_of word.now (numbers_of (words_past rest.now)) }
{
    match read_numbers(rest)? {
        Numbers::Nought => nought(word),
        Numbers::One(a) => one(word, a),
        Numbers::Two(a, b) => two(word, a, b),
        Numbers::Three(a, b, c) => three(word, a, b, c),
        Numbers::Four(a, b, c, d) => four(word, a, b, c, d),
    }
}

// What a line says, its newline left out. None: it is not understood, which is refusal 8.
#[tactic(auto, using(crate::proofs::Reading::same_reads), unfolding(crate::specs::Grammar::understood, crate::specs::Grammar::line_of))]
pub fn understand(line: &[u8]) -> Option<Line>
    ensures { result ≡ understood line.now }
{
    let (word, rest) = first_word(line);
    match word {
        b"open" => open_line(rest),
        b"retain" => retain_line(rest),
        _ => call_line(word, rest),
    }
}
