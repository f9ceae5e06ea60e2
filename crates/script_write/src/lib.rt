// An answer and its rows as lines, in bytes. Each function writes behind a text: their clauses name the
// bytes of the lent buffer, so none of them is a Display.
#![tactic(auto)]

ghost use Rattle.std.specs.Prelude.{cond, [], ◌∷◌, ◌+◌, length};
ghost use Rattle.script_digits.specs.Laid.{Room, Left, Added};
ghost use Rattle.script_write.specs.Lines.{field, numbered, now_line, row_word, row_line, entry_lines, closing_line, most_field, most_line};

use head::{Answer, Row};
use script_digits::Text;

// One of two words.
fn write_either(text: &mut Text<'_>, first: bool, one: &[u8], other: &[u8])
    requires { Left (length one.now) text.old × Left (length other.now) text.old }
    ensures { Added (cond first one.now other.now) text.old text.new }
{
    text.word(if first { one } else { other });
}

// A number and the byte after it.
fn write_field(text: &mut Text<'_>, n: u64, end: u8)
    requires { Left most_field text.old }
    ensures { Added (field n (end ∷ [])) text.old text.new }
{
    text.number(n);
    text.put(end);
}

// A word, a number and the end of the line.
fn write_numbered(text: &mut Text<'_>, word: &[u8], n: u64)
    requires { Left (length word.now + most_field) text.old }
    ensures { Added (numbered word.now n) text.old text.new }
{
    text.word(word);
    write_field(text, n, b'\n');
}

// The line of a row: listed, or of an entry that went out.
pub fn write_row(text: &mut Text<'_>, listed: bool, row: Row)
    requires { Left most_line text.old }
    ensures { Added (row_line (row_word listed) row) text.old text.new }
{
    write_either(text, listed, b"row ", b"out ");
    write_field(text, row.code.0, b' ');
    write_field(text, u64::from(row.stamp), b' ');
    write_field(text, row.value, b' ');
    write_field(text, row.weight, b'\n');
}

fn write_now(text: &mut Text<'_>, value: u64, new: bool)
    requires { Left most_line text.old }
    ensures { Added (now_line value new) text.old text.new }
{
    text.word(b"now ");
    write_field(text, value, b' ');
    write_either(text, new, b"new\n", b"old\n");
}

fn write_entry(text: &mut Text<'_>, row: Row)
    requires { Left most_line text.old }
    ensures { Added (entry_lines row) text.old text.new }
{
    write_row(text, true, row);
    text.word(b"ok\n");
}

// The closing line of an answer.
pub fn write_answer(text: &mut Text<'_>, answer: Answer)
    requires { Left most_line text.old }
    ensures { Added (closing_line answer) text.old text.new }
{
    match answer {
        Answer::No(why) => write_numbered(text, b"no ", u64::from(why.number())),
        Answer::New { .. } => text.word(b"new\n"),
        Answer::Was { value, .. } => write_numbered(text, b"was ", value),
        Answer::Is(value) => write_numbered(text, b"is ", value),
        Answer::Now { value, new, .. } => write_now(text, value, new),
        Answer::Absent => text.word(b"absent\n"),
        Answer::Entry(row) => write_entry(text, row),
        Answer::Done { .. } => text.word(b"ok\n"),
        Answer::Count(k) => write_numbered(text, b"count ", k),
        Answer::Flag(yes) => write_either(text, yes, b"true\n", b"false\n"),
    }
}
