// The CRC-32 of a code's eight bytes, by half-bytes, and the home cell that it gives.
#![tactic(auto)]

ghost use Rattle.std.specs.Prelude.{◌≡◌};
ghost use Rattle.crc.specs.Crc.{shifts, with_byte, crc_of, bytes};
ghost use Rattle.crc.specs.Home.{Cells, home_of};

use head::Code;

// Entry k is k after four shifts. 01 asks for a const array of sixteen u32.
const TABLE: [u32; 16] = [
    0x00000000, 0x1DB71064, 0x3B6E20C8, 0x26D930AC, 0x76DC4190, 0x6B6B51F4, 0x4DB26158, 0x5005713C,
    0xEDB88320, 0xF00F9344, 0xD6D6A3E8, 0xCB61B38C, 0x9B64C2B0, 0x86D3D2D4, 0xA00AE278, 0xBDBDF21C,
];

// Four shifts at once.
fn half(x: u32) -> u32
    ensures { result ≡ shifts 4 x }
{
    let i = (x & 15) as usize;
    (x >> 4) ^ TABLE[i]
}

// One byte taken in.
fn byte(c: u32, b: u8) -> u32
    ensures { result ≡ with_byte c b }
{
    half(half(c ^ u32::from(b)))
}

// The CRC-32 of some bytes.
pub fn of_bytes(s: &[u8]) -> u32
    ensures { result ≡ crc_of s.now }
{
    let mut sum: u32 = 0xFFFFFFFF;
    for b in s {
        sum = byte(sum, *b);
    }
    sum ^ 0xFFFFFFFF
}

// The CRC-32 of a code's eight bytes, low byte first.
pub fn crc32(code: Code) -> u32
    ensures { result ≡ crc_of (bytes 8 code.0) }
{
    of_bytes(&code.0.to_le_bytes())
}

// The home cell of a code among the 2n cells of a table.
pub fn home(code: Code, n: usize) -> usize
    requires { Cells n }
    ensures { result ≡ home_of n code.0 }
{
    (crc32(code) as usize) % (2 * n)
}
