//! Hexadecimal lines: the questions asked of every line, its digits as bytes, bytes as small digits, and the faults of a line.
#![tactic(auto)]

ghost use Rattle.std.specs.Prelude.{◌≡◌, ◌<◌, ◌++◌, take};
ghost use Rattle.std.specs.Option.{unwrap_or};
ghost use Rattle.hex_lines.specs.Digits.{digit_value, first_bad, line_check, digit_of, digits_of, ReadBack};
ghost use Rattle.hex_lines.specs.Buffers.{Decoded};

pub mod buffer;
pub mod fault;

use buffer::Buffer;
use fault::LineFault;

/// The most characters that a line may have.
pub const LONGEST_LINE: usize = 8192;

/// The value of a hexadecimal digit, small or capital.
pub fn digit(character: u8) -> Option<u8>
    ensures { result ≡ digit_value character }
{
    // By ranges, since reading a run of lines by `char::to_digit` took a tenth longer.
    match character {
        b'0'..=b'9' => Some(character - b'0'),
        b'a'..=b'f' => Some(character - b'a' + 10),
        b'A'..=b'F' => Some(character - b'A' + 10),
        _ => None,
    }
}

// The place of the first character that is no digit.
fn find_bad(line: &[u8]) -> Option<usize>
    ensures { result ≡ first_bad line.now }
{
    line.iter()
        .position(|character| digit(*character).is_none())
}

/// The questions asked of every line, in their order.
pub fn check_line(line: &[u8]) -> Result<(), LineFault>
    ensures { result ≡ line_check line.now }
{
    if line.len() > LONGEST_LINE {
        return Err(LineFault::LongLine);
    }
    if let Some(place) = find_bad(line) {
        return Err(LineFault::BadDigit(place));
    }
    if line.len() % 2 == 1 {
        return Err(LineFault::OddDigits);
    }
    Ok(())
}

// The value of a digit that was found good.
fn value(character: u8) -> u8
    ensures value { result ≡ unwrap_or (digit_value character) 0 }
    ensures small { result < 16 }
{
    digit(character).unwrap_or(0)
}

/// Reads a line into a buffer, which then holds the bytes that the line spells, as many as there is room for. A fault leaves the buffer as it was.
pub fn decode<const ROOM: usize>(line: &[u8], bytes: &mut Buffer<ROOM>) -> Result<(), LineFault>
    ensures { Decoded ROOM line.now bytes.old result bytes.new }
{
    check_line(line)?;
    bytes.clear();
    for [high, low] in line.as_chunks::<2>().0 {
        bytes.push(value(*high) * 16 + value(*low));
    }
    Ok(())
}

// The small digit of a value below 16.
fn small_digit(value: u8) -> u8
    requires { value < 16 }
    ensures { result ≡ digit_of value }
{
    char::from_digit(u32::from(value), 16).unwrap() as u8
}

/// Adds two small digits for each byte to a text, as many as there is room for. Read as a line, the digits spell the bytes again.
pub fn encode<const ROOM: usize>(bytes: &[u8], text: &mut Buffer<ROOM>)
    ensures back { ReadBack bytes.now }
    ensures digits { text.new ≡ take ROOM (text.old ++ digits_of bytes.now) }
{
    // what a buffer holds fits its room
    prove!(text.as_slice().len() <= ROOM);
    for byte in bytes {
        text.push(small_digit(*byte / 16));
        text.push(small_digit(*byte % 16));
    }
}
