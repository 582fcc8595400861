//! Numbers in a line.

ghost use Rattle.std.specs.Prelude.{◌≡◌, ◌≤◌};
ghost use Rattle.world_file.specs.Reading.{GivesForm, after_byte, is_digit, digits_read, natural_read, number_read};

use crate::fault::Form;

/// A number that is greater than each bound of a value. A size counts up to it.
pub(crate) const FAR: u64 = 4294967296;

/// A number of a line, whose size is at most `FAR`.
#[derive(Clone, Copy, PartialEq, Eq)]
pub(crate) struct Number {
    pub(crate) negative: bool,
    pub(crate) size: u64,
}

/// The bytes after one that comes first.
pub(crate) fn after_byte(bytes: &[u8], byte: u8) -> Result<&[u8], Form>
    ensures { GivesForm (λ rest. rest.now) result (after_byte byte bytes.now) }
{
    match bytes {
        [first, rest @ ..] if *first == byte => Ok(rest),
        _ => Err(Form),
    }
}

/// Reads a number with a space before it, and gives the bytes after its last digit.
#[tactic(auto, unfolding(crate::specs::Reading::number_read))]
pub(crate) fn read_number(bytes: &[u8]) -> Result<(Number, &[u8]), Form>
    ensures { GivesForm (λ x. (x.0, x.1.now)) result (number_read bytes.now) }
{
    let bytes = after_byte(bytes, b' ')?;
    match after_byte(bytes, b'-') {
        Err(Form) => {
            let (size, rest) = read_natural(bytes)?;
            Ok((
                Number {
                    negative: false,
                    size,
                },
                rest,
            ))
        }
        Ok(bytes) => {
            let (size, rest) = read_natural(bytes)?;
            if size == 0 {
                return Err(Form);
            }
            Ok((
                Number {
                    negative: true,
                    size,
                },
                rest,
            ))
        }
    }
}

/// Reads digits: a zero, or some of which the first is none.
fn read_natural(bytes: &[u8]) -> Result<(u64, &[u8]), Form>
    ensures { GivesForm (λ x. (x.0, x.1.now)) result (natural_read bytes.now) }
{
    match bytes {
        [b'0', rest @ ..] => Ok((0, rest)),
        [digit, rest @ ..] if is_digit(*digit) => Ok(read_digits(u64::from(*digit - b'0'), rest)),
        _ => Err(Form),
    }
}

/// Reads the digits after a number.
#[tactic(auto, unfolding(crate::specs::Reading::digits_read))]
fn read_digits(first: u64, bytes: &[u8]) -> (u64, &[u8])
    requires { first ≤ FAR }
    ensures { (result.0, result.1.now) ≡ digits_read first bytes.now }
{
    let mut size = first;
    let mut rest = bytes;
    while let [digit, after @ ..] = rest {
        if !is_digit(*digit) {
            break;
        }
        size = (10 * size + u64::from(*digit - b'0')).min(FAR);
        rest = after;
    }
    (size, rest)
}

fn is_digit(byte: u8) -> bool
    ensures { result ≡ is_digit byte }
{
    b'0' <= byte && byte <= b'9'
}
