// Hexadecimal of either case, two characters a byte.
ghost use Rattle.std.specs.Prelude.{◌*◌, ◌/◌, ◌≤◌, length};
ghost use Rattle.frame.specs.Decoded.{Nibble, Byte, Decoded};

// What each character stands for; 16 says that it is no hexadecimal character. A table, and not `char::to_digit`, whose
// tests of digit and letter are jumps that cannot be foretold: 1.8 to 4 times the time of `frames` on accepted frames.
const NIBBLES: [u8; 256] = [
    16, 16, 16, 16, 16, 16, 16, 16, 16, 16, 16, 16, 16, 16, 16, 16, 16, 16, 16, 16, 16, 16, 16, 16,
    16, 16, 16, 16, 16, 16, 16, 16, 16, 16, 16, 16, 16, 16, 16, 16, 16, 16, 16, 16, 16, 16, 16, 16,
    0, 1, 2, 3, 4, 5, 6, 7, 8, 9, 16, 16, 16, 16, 16, 16, 16, 10, 11, 12, 13, 14, 15, 16, 16, 16,
    16, 16, 16, 16, 16, 16, 16, 16, 16, 16, 16, 16, 16, 16, 16, 16, 16, 16, 16, 16, 16, 16, 16, 10,
    11, 12, 13, 14, 15, 16, 16, 16, 16, 16, 16, 16, 16, 16, 16, 16, 16, 16, 16, 16, 16, 16, 16, 16,
    16, 16, 16, 16, 16, 16, 16, 16, 16, 16, 16, 16, 16, 16, 16, 16, 16, 16, 16, 16, 16, 16, 16, 16,
    16, 16, 16, 16, 16, 16, 16, 16, 16, 16, 16, 16, 16, 16, 16, 16, 16, 16, 16, 16, 16, 16, 16, 16,
    16, 16, 16, 16, 16, 16, 16, 16, 16, 16, 16, 16, 16, 16, 16, 16, 16, 16, 16, 16, 16, 16, 16, 16,
    16, 16, 16, 16, 16, 16, 16, 16, 16, 16, 16, 16, 16, 16, 16, 16, 16, 16, 16, 16, 16, 16, 16, 16,
    16, 16, 16, 16, 16, 16, 16, 16, 16, 16, 16, 16, 16, 16, 16, 16, 16, 16, 16, 16, 16, 16, 16, 16,
    16, 16, 16, 16, 16, 16, 16, 16, 16, 16, 16, 16, 16, 16,
];

// What a character stands for, if it is hexadecimal.
#[tactic(auto, using(crate::proofs::Hexadecimal::nibble_laws))]
fn nibble(c: u8) -> Option<u8>
    ensures { Nibble c result }
{
    let x = NIBBLES[c as usize];
    if 15 < x {
        return None;
    }
    Some(x)
}

// The byte that two characters stand for, if both are hexadecimal.
#[tactic(auto, using(crate::proofs::Hexadecimal::byte_laws))]
fn byte(c: u8, d: u8) -> Option<u8>
    ensures { Byte c d result }
{
    let high = nibble(c)?;
    let low = nibble(d)?;
    Some(16 * high + low)
}

// Puts the bytes of a line at the start of `out`; false for an odd count or any other character. Not by the crate
// `hex`: the order of a byte's halves would stand there, out of reach of the wrong program `low_nibble_first`. A `bool`
// and no `Option`: all that is wrong is answered `hex`, and the length is half the line's.
#[tactic(auto, using(crate::proofs::Hexadecimal::decode_laws))]
pub(crate) fn decode(line: &[u8], out: &mut [u8]) -> bool
    requires { length line.now ≤ 2 * length out.old }
    ensures decoded { Decoded line.now out.new result }
    ensures line_in_bounds { length line.now / 2 ≤ length out.new }
{
    for i in 0..line.len() / 2 {
        let Some(byte) = byte(line[2 * i], line[2 * i + 1]) else {
            return false;
        };
        out[i] = byte;
    }
    line.len() % 2 == 0
}
