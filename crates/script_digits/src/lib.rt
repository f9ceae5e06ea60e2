// A text in a buffer, and numbers in it as decimal digits.
#![tactic(auto)]

ghost use Rattle.std.specs.Prelude.{[], ◌∷◌};
ghost use Rattle.script_digits.specs.Decimal.{digits_of};
ghost use Rattle.script_digits.specs.Laid.{Room, Laid, Added};

// Writes the decimal digits of a number from a place on, and answers the place after them. The place goes by value: behind a text it would be stored and
// read again for each digit.
fn digits(buffer: &mut [u8], at: usize, n: u64) -> usize
    requires { Room at (digits_of n) buffer.old }
    ensures { Laid at (digits_of n) result buffer.old buffer.new }
{
    let mut end = at;
    if n >= 10 {
        end = digits(buffer, at, n / 10);
    }
    buffer[end] = b'0' + (n % 10) as u8;
    end + 1
}

// A buffer that holds a text so far: its first `end` bytes.
#[derive(Drop)]
pub struct Text<'a> {
    pub buffer: &'a mut [u8],
    pub end: usize,
}

impl Text<'_> {
    // Writes one byte behind the text.
    pub fn put(&mut self, byte: u8)
        requires { Room self.old.end (byte ∷ []) self.old.buffer.now }
        ensures { Added (byte ∷ []) self.old self.new }
    {
        self.buffer[self.end] = byte;
        self.end += 1;
    }

    // Writes bytes behind the text.
    pub fn word(&mut self, word: &[u8])
        requires { Room self.old.end word.now self.old.buffer.now }
        ensures { Added word.now self.old self.new }
    {
        let next = self.end + word.len();
        self.buffer[self.end..next].copy_from_slice(word);
        self.end = next;
    }

    // Writes the decimal digits of a number behind the text.
    pub fn number(&mut self, n: u64)
        requires { Room self.old.end (digits_of n) self.old.buffer.now }
        ensures { Added (digits_of n) self.old self.new }
    {
        self.end = digits(self.buffer, self.end, n);
    }
}
