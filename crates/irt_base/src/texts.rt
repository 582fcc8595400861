//! Texts of numbers.

ghost use Rattle.std.specs.Prelude.{◌≡◌, ◌≤◌, ◌++◌, ◌*◌, ◌^◌, ◌<◌, ◌↔◌, ℕ, length, take, drop, codes, decimal, IsTrue, Some, IfSome};
ghost use Rattle.irt_base.specs.Text.{hex_digits, hex_digit, frame_text, IsDecimal};

use crate::numbers::FrameId;
use itoa::Buffer;
use std::str::from_utf8;

/// Writes the decimal digits of a number to the front of `out`, and gives how many there are.
pub fn print_decimal(out: &mut [u8; 20], value: u64) -> usize
    ensures text { take result out.new ≡ decimal value }
    ensures fits { result ≤ 20 }
    ensures rest { drop result out.new ≡ drop result out.old }
{
    let mut buffer = Buffer::new();
    let text = buffer.format(value).as_bytes();
    let count = text.len();
    out[..count].copy_from_slice(text);
    count
}

/// Reads the decimal digits of a number: `0`, or digits of which the first isn't `0`. Any other text is
/// none, and so is one whose number takes more than 64 bits. It takes no memory.
pub fn read_decimal(text: &[u8]) -> Option<u64>
    ensures found { IfSome result (λ n. IsDecimal text.now n) }
    ensures only { (n : ℕ) → IsDecimal text.now n → result ≡ Some n }
{
    let number = parse_number(text)?;
    is_decimal(text, number).then_some(number)
}

/// The number of a text, also where a plus or zeros stand first.
fn parse_number(text: &[u8]) -> Option<u64>
    ensures { (n : ℕ) → IsDecimal text.now n → result ≡ Some n }
{
    from_utf8(text).ok()?.parse().ok()
}

/// Whether a text is what is printed for a number.
fn is_decimal(text: &[u8], number: u64) -> bool
    ensures { IsTrue result ↔ (text.now ≡ decimal number) }
{
    let mut digits = [0; 20];
    let count = print_decimal(&mut digits, number);
    text == &digits[..count]
}

/// Writes the sixteen lower-case hexadecimal digits of a number.
pub fn print_hex(out: &mut [u8; 16], value: u64)
    ensures { out.new ≡ hex_digits 16 value }
{
    write_hex(out, value)
}

/// Writes a FrameID as `0x` and four lower-case hexadecimal digits.
pub fn print_frame(out: &mut [u8; 6], frame: FrameId)
    ensures { out.new ≡ frame_text frame.0 }
{
    let mut digits = [0; 4];
    write_hex(&mut digits, u64::from(frame.0));
    *out = [b'0', b'x', digits[0], digits[1], digits[2], digits[3]];
}

/// Fills `out` with the last hexadecimal digits of a number.
fn write_hex(out: &mut [u8], value: u64)
    ensures { out.new ≡ hex_digits (length out.old) value }
{
    let mut rest = value;
    let mut place = out.len();
    while place > 0 {
        place -= 1;
        out[place] = hex_byte((rest % 16) as u8);
        rest /= 16;
    }
}

/// The text of a hexadecimal digit.
fn hex_byte(digit: u8) -> u8
    requires { digit < 16 }
    ensures { result ≡ hex_digit digit }
{
    if digit < 10 {
        b'0' + digit
    } else {
        b'a' + (digit - 10)
    }
}
