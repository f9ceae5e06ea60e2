// Runs the CRC on published and other vectors, whose values were made by another routine, and writes a line for each.
#![tactic(auto)]

ghost use Rattle.std.specs.Prelude.{◌≤◌, length, IfOk};

use head::Code;
use std::{fmt, io};

// A name, the value that was computed, and the one that is expected.
#[derive(Clone, Copy)]
struct Vector {
    name: &'static str,
    value: u64,
    expected: u64,
}

impl Vector {
    fn new(name: &'static str, value: u64, expected: u64) -> Vector {
        Vector {
            name,
            value,
            expected,
        }
    }

    fn is_right(&self) -> bool {
        self.value == self.expected
    }
}

impl fmt::Display for Vector {
    fn fmt<W: fmt::Write>(&self, f: &mut fmt::Formatter<W>) -> fmt::Result {
        let word = if self.is_right() { "ok" } else { "differs" };
        write!(f, "{} {:08x} {word}", self.name, self.value)
    }
}

fn of_text(name: &'static str, text: &[u8], expected: u64) -> Vector {
    Vector::new(name, u64::from(crc::of_bytes(text)), expected)
}

fn of_code(name: &'static str, code: u64, expected: u64) -> Vector {
    Vector::new(name, u64::from(crc::crc32(Code(code))), expected)
}

fn texts() -> [Vector; 10] {
    [
        of_text("check", b"123456789", 0xCBF43926),
        of_text("empty", b"", 0x00000000),
        of_text("a", b"a", 0xE8B7BE43),
        of_text("abc", b"abc", 0x352441C2),
        of_text("message-digest", b"message digest", 0x20159D7F),
        of_text("alphabet", b"abcdefghijklmnopqrstuvwxyz", 0x4C2750BD),
        of_text(
            "fox",
            b"The quick brown fox jumps over the lazy dog",
            0x414FA339,
        ),
        of_text("byte-00", &[0], 0xD202EF8D),
        of_text("byte-01", &[1], 0xA505DF1B),
        of_text("byte-ff", &[255], 0xFF000000),
    ]
}

fn runs() -> [Vector; 4] {
    let ascending = [
        0, 1, 2, 3, 4, 5, 6, 7, 8, 9, 10, 11, 12, 13, 14, 15, 16, 17, 18, 19, 20, 21, 22, 23, 24,
        25, 26, 27, 28, 29, 30, 31,
    ];
    let mut descending = ascending;
    descending.reverse();
    [
        of_text("thirty-two-00", &[0; 32], 0x190A55AD),
        of_text("thirty-two-ff", &[255; 32], 0xFF6CAB0B),
        of_text("ascending", &ascending, 0x91267E8A),
        of_text("descending", &descending, 0x9AB0EF72),
    ]
}

fn codes() -> [Vector; 9] {
    [
        of_code("code-0", 0, 0x6522DF69),
        of_code("code-1", 1, 0xA988DFF7),
        of_code("code-2", 2, 0x2707D814),
        of_code("code-255", 255, 0x4369D98F),
        of_code("code-256", 256, 0xC355D4DD),
        of_code("code-12345678", 578437695752307201, 0x3FCA88C5),
        of_code("code-2^32", 4294967296, 0xDD9EB80C),
        of_code("code-2^63", 9223372036854775808, 0x889A5C49),
        of_code("code-2^64-1", u64::MAX, 0x2144DF1C),
    ]
}

fn homes() -> [Vector; 3] {
    [
        Vector::new("home-1-of-32", crc::home(Code(1), 16) as u64, 0x00000017),
        Vector::new("home-1-of-2", crc::home(Code(1), 1) as u64, 0x00000001),
        Vector::new(
            "home-2^64-1-of-8192",
            crc::home(Code(u64::MAX), 4096) as u64,
            0x00001F1C,
        ),
    ]
}

// Writes a line for each vector, and answers how many are right.
fn tell(rt: &impl Print, vectors: &[Vector]) -> io::Result<usize>
    ensures { IfOk result (λ right. right ≤ length vectors.now) }
{
    for vector in vectors {
        println!(rt; "{vector}")?;
    }
    Ok(vectors.iter().filter(|v| v.is_right()).count())
}

fn main(rt: HostRuntime) -> io::Result<()> {
    let right = tell(&rt, &texts())?
        + tell(&rt, &runs())?
        + tell(&rt, &codes())?
        + tell(&rt, &homes())?;
    println!(rt; "{right} of 26 ok")
}
