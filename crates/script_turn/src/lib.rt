// One line of the script, carried out on a state that is lent.
#![tactic(auto)]

ghost use Rattle.std.specs.Prelude.{suc, ◌*◌, ◌≡◌};
ghost use Rattle.head.specs.Fields.{Reach};
ghost use Rattle.state.specs.State.{held, lent, viewed, SameLists, SameRows};
ghost use Rattle.script_digits.specs.Laid.{Laid, Left, Added};
ghost use Rattle.script_write.specs.Lines.{most_line, row_word, row_lines};
ghost use Rattle.script_read.specs.Grammar.{understood};
ghost use Rattle.script_turn.specs.Turned.{begun, Turns};
ghost use Rattle.script_turn.specs.Took.{Takes, Took};
ghost use Rattle.script_turn.specs.Replies.{is_listing, listed, rows_from, Roomy, shown, replied};

use head::{Answer, Form, Head, Refusal};
use script_digits::Text;
use script_read::Line;
use state::{Fields, FieldsView, State};

// What opening says.
fn begin(opened: Result<Head, Refusal>) -> Answer
    ensures { result ≡ begun opened }
{
    match opened {
        Ok(_) => Answer::Done { rows: 0 },
        Err(refusal) => Answer::No(refusal),
    }
}

// Carries a line out. What is not understood is refusal 8, whatever the state.
pub fn carry_out(state: &mut State<'_>, rows: &mut Fields<'_>, line: Option<Line>) -> Answer
    ensures lists { SameLists state.old state.new }
    ensures row_lists { SameRows rows.old rows.new }
    ensures turns { Turns line (lent state.old) (lent state.new) (held rows.old) (held rows.new) result }
{
    let Some(line) = line else {
        return Answer::No(Refusal::NotUnderstood);
    };
    match line {
        Line::Open {
            kind,
            capacity,
            slots,
        } => begin(opening::open(kind, capacity, slots, state)),
        Line::Call(command) => door::call(state, rows, command),
    }
}

// Whether the rows of a call of this form are listed entries, which stay, or entries that went out.
fn stays(form: Form) -> bool
    ensures { result ≡ is_listing form }
{
    matches!(form, Form::Listing)
}

// The same of a line.
pub fn lists(line: Option<Line>) -> bool
    ensures { result ≡ listed line }
{
    match line {
        Some(Line::Call(command)) => stays(command.form()),
        Some(Line::Open { .. }) | None => false,
    }
}

// Writes the lines of the first n rows behind a text.
fn write_rows(text: &mut Text<'_>, stay: bool, rows: &FieldsView<'_>, n: u32)
    requires { Reach n (viewed rows.now) × Left (suc n * most_line) text.old }
    ensures { Added (row_lines (row_word stay) (rows_from n (viewed rows.now))) text.old text.new }
{
    for j in 0..n {
        script_write::write_row(text, stay, rows.read(j));
    }
}

// Writes the whole text of an answer: the lines of its rows, and the closing line. It answers how long the text is.
pub fn reply(buffer: &mut [u8], stay: bool, rows: &FieldsView<'_>, answer: Answer) -> usize
    requires { Roomy (shown answer (viewed rows.now)) (viewed rows.now) buffer.old }
    ensures { Laid 0 (replied stay (viewed rows.now) answer) result buffer.old buffer.new }
{
    let n = rows.room().min(answer.rows() as usize) as u32;
    let mut text = Text { buffer, end: 0 };
    write_rows(&mut text, stay, rows, n);
    script_write::write_answer(&mut text, answer);
    text.end
}

// What a line says in return: the answer, and how much of the buffer its text takes.
#[derive(Clone, Copy)]
pub struct Turned {
    pub answer: Answer,
    pub size: usize,
}

// One line, from its bytes to the text of its answer.
pub fn take(line: &[u8], state: &mut State<'_>, rows: &mut Fields<'_>, out: &mut [u8]) -> Turned
    requires { Takes (held rows.old) out.old }
    ensures lists { SameLists state.old state.new }
    ensures row_lists { SameRows rows.old rows.new }
    ensures took { Took (understood line.now) (lent state.old) (lent state.new) (held rows.old) (held rows.new) result.answer result.size out.old out.new }
{
    let understood = script_read::understand(line);
    let stay = lists(understood);
    let answer = carry_out(state, rows, understood);
    let size = reply(out, stay, &rows.view(), answer);
    Turned { answer, size }
}
