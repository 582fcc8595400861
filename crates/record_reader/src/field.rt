//! The fields of a line, each behind a space.

ghost use Rattle.std.specs.Prelude.{◌≡◌, ◌≤◌, ◌<◌, ◌^◌, IfOk, length, ◌∷◌, [], bytes_eq, position};
ghost use Rattle.irt_base.specs.declared.plants.Device.{Device};
ghost use Rattle.record_reader.specs.Reading.{GivesForm, after_byte, after_bytes, device_of_name, device_read, digit_of, ends_field, field_length, flag_of, flag_read, frame_of, frame_read, frame_value, hex_value, number_of, number_read, negated, number_up_to, port_read, taken_read, time_of, time_read, token_read, word_of, word_read};

use crate::fault::Form;
use io_buffers::taken::Taken;
use irt_base::numbers::{DevId, FrameId, Ns, PortNo};
use irt_base::plants::{Device, Plant};
use irt_base::texts::{print_frame, print_hex, read_decimal};

/// The bytes after one that comes first.
pub(crate) fn after_byte(bytes: &[u8], byte: u8) -> Result<&[u8], Form>
    ensures { GivesForm (λ rest. rest.now) result (after_byte byte bytes.now) }
{
    match bytes {
        [first, rest @ ..] if *first == byte => Ok(rest),
        _ => Err(Form),
    }
}

/// The bytes after a dropped frame's ` step`, and the line's end.
pub(crate) fn after_step(bytes: &[u8]) -> Result<&[u8], Form>
    ensures { GivesForm (λ rest. rest.now) result (after_bytes (32 ∷ 115 ∷ 116 ∷ 101 ∷ 112 ∷ 10 ∷ []) bytes.now) }
{
    let bytes = after_byte(bytes, b' ')?;
    let bytes = after_byte(bytes, b's')?;
    let bytes = after_byte(bytes, b't')?;
    let bytes = after_byte(bytes, b'e')?;
    let bytes = after_byte(bytes, b'p')?;
    after_byte(bytes, b'\n')
}

fn ends_field(byte: u8) -> bool
    ensures { result ≡ ends_field byte }
{
    byte == b' ' || byte == b'\n' || byte == b':'
}

fn first_end(bytes: &[u8]) -> Option<usize>
    ensures { result ≡ position ends_field bytes.now }
{
    bytes.iter().position(|byte| ends_field(*byte))
}

/// How many bytes stand before one that ends a field.
fn field_length(bytes: &[u8]) -> usize
    ensures value { result ≡ field_length bytes.now }
    ensures within { result ≤ length bytes.now }
{
    match first_end(bytes) {
        Some(found) => found,
        None => bytes.len(),
    }
}

/// The field that comes first, and the bytes from its end.
#[tactic(auto, unfolding(crate::specs::Reading::token_read))]
fn read_token(bytes: &[u8]) -> Result<(&[u8], &[u8]), Form>
    ensures { GivesForm (λ x. (x.0.now, x.1.now)) result (token_read bytes.now) }
{
    let bytes = after_byte(bytes, b' ')?;
    let length = field_length(bytes);
    Ok((&bytes[..length], &bytes[length..]))
}

fn number_of(text: &[u8]) -> Result<u64, Form>
    ensures { GivesForm (λ n. n) result (number_of text.now) }
{
    match read_decimal(text) {
        Some(number) => Ok(number),
        None => Err(Form),
    }
}

fn number_up_to(text: &[u8], max: u64) -> Result<u64, Form>
    ensures value { GivesForm (λ n. n) result (number_up_to max text.now) }
    ensures fits { IfOk result (λ n. n ≤ max) }
{
    let number = number_of(text)?;
    if number <= max { Ok(number) } else { Err(Form) }
}

/// A number up to another one.
pub(crate) fn read_number(bytes: &[u8], max: u64) -> Result<(u64, &[u8]), Form>
    ensures value { GivesForm (λ x. (x.0, x.1.now)) result (number_read max bytes.now) }
    ensures fits { IfOk result (λ x. x.0 ≤ max) }
{
    let (text, rest) = read_token(bytes)?;
    let number = number_up_to(text, max)?;
    Ok((number, rest))
}

#[tactic(auto, unfolding(crate::specs::Reading::time_of))]
fn time_of(text: &[u8]) -> Result<Ns, Form>
    ensures { GivesForm (λ time. time) result (time_of text.now) }
{
    match text {
        [] => Err(Form),
        [b'-', size @ ..] => negated(number_up_to(size, 9223372036854775808)?),
        _ => Ok(number_up_to(text, 9223372036854775807)? as i64),
    }
}

/// What a size is with a minus.
fn negated(size: u64) -> Result<Ns, Form>
    requires { size ≤ 2 ^ 63 }
    ensures { GivesForm (λ time. time) result (negated size) }
{
    if size == 0 {
        return Err(Form);
    }
    Ok(-((size - 1) as i64) - 1)
}

/// A time in ns.
pub(crate) fn read_time(bytes: &[u8]) -> Result<(Ns, &[u8]), Form>
    ensures { GivesForm (λ x. (x.0, x.1.now)) result (time_read bytes.now) }
{
    let (text, rest) = read_token(bytes)?;
    let time = time_of(text)?;
    Ok((time, rest))
}

fn digit_of(byte: u8) -> u64
    ensures { result ≡ digit_of byte }
{
    if b'a' <= byte {
        (u64::from(byte) + 9) % 16
    } else {
        u64::from(byte) % 16
    }
}

/// The value of a text's last sixteen hexadecimal digits.
#[tactic(auto, unfolding(crate::specs::Reading::hex_value))]
fn hex_value(text: &[u8]) -> u64
    ensures { result ≡ hex_value 0 text.now }
{
    let mut value = 0;
    for byte in text {
        value = value % (1 << 60) * 16 + digit_of(*byte);
    }
    value
}

#[tactic(auto, unfolding(crate::specs::Reading::word_of))]
fn word_of(text: &[u8]) -> Result<u64, Form>
    ensures { GivesForm (λ word. word) result (word_of text.now) }
{
    let word = hex_value(text);
    let mut digits = [0; 16];
    print_hex(&mut digits, word);
    if text == digits.as_slice() {
        Ok(word)
    } else {
        Err(Form)
    }
}

/// A word of sixteen digits.
pub(crate) fn read_word(bytes: &[u8]) -> Result<(u64, &[u8]), Form>
    ensures { GivesForm (λ x. (x.0, x.1.now)) result (word_read bytes.now) }
{
    let (text, rest) = read_token(bytes)?;
    let word = word_of(text)?;
    Ok((word, rest))
}

/// The digits of a frame's text.
fn frame_value(text: &[u8]) -> u16
    ensures { result ≡ frame_value text.now }
{
    let start = text.len().min(2);
    (hex_value(&text[start..]) % 65536) as u16
}

#[tactic(auto, unfolding(crate::specs::Reading::frame_of))]
fn frame_of(text: &[u8]) -> Result<FrameId, Form>
    ensures { GivesForm (λ frame. frame) result (frame_of text.now) }
{
    let frame = FrameId(frame_value(text));
    let mut digits = [0; 6];
    print_frame(&mut digits, frame);
    if text == digits.as_slice() {
        Ok(frame)
    } else {
        Err(Form)
    }
}

/// A FrameID.
pub(crate) fn read_frame(bytes: &[u8]) -> Result<(FrameId, &[u8]), Form>
    ensures { GivesForm (λ x. (x.0, x.1.now)) result (frame_read bytes.now) }
{
    let (text, rest) = read_token(bytes)?;
    let frame = frame_of(text)?;
    Ok((frame, rest))
}

fn flag_of(text: &[u8]) -> Result<bool, Form>
    ensures { GivesForm (λ flag. flag) result (flag_of text.now) }
{
    if text == b"1".as_slice() {
        Ok(true)
    } else if text == b"0".as_slice() {
        Ok(false)
    } else {
        Err(Form)
    }
}

/// A flag, 0 or 1.
fn read_flag(bytes: &[u8]) -> Result<(bool, &[u8]), Form>
    ensures { GivesForm (λ x. (x.0, x.1.now)) result (flag_read bytes.now) }
{
    let (text, rest) = read_token(bytes)?;
    let flag = flag_of(text)?;
    Ok((flag, rest))
}

fn first_named(devices: &[Device], name: &[u8]) -> Option<usize>
    ensures { result ≡ position (λ (d : Device). bytes_eq d.name name.now) devices.now }
{
    devices
        .iter()
        .position(|device| device.name.as_slice() == name)
}

fn device_of_name(plant: &Plant, name: &[u8]) -> Result<DevId, Form>
    requires { length plant.now.devices ≤ 256 }
    ensures { GivesForm (λ device. device) result (device_of_name plant.now name.now) }
{
    match first_named(plant.devices.as_slice(), name) {
        Some(found) => Ok(DevId(found as u8)),
        None => Err(Form),
    }
}

/// The name of a device.
pub(crate) fn read_device<'a>(plant: &Plant, bytes: &'a [u8]) -> Result<(DevId, &'a [u8]), Form>
    requires { length plant.now.devices ≤ 256 }
    ensures { GivesForm (λ x. (x.0, x.1.now)) result (device_read plant.now bytes.now) }
{
    let (name, rest) = read_token(bytes)?;
    let device = device_of_name(plant, name)?;
    Ok((device, rest))
}

/// The number of a port.
pub(crate) fn read_port(bytes: &[u8]) -> Result<(PortNo, &[u8]), Form>
    ensures { GivesForm (λ x. (x.0, x.1.now)) result (port_read bytes.now) }
{
    let (port, rest) = read_number(bytes, 255)?;
    Ok((PortNo(port as u8), rest))
}

/// The answer of a take.
#[tactic(auto, unfolding(crate::specs::Reading::taken_read))]
pub(crate) fn read_taken(bytes: &[u8]) -> Result<(Taken, &[u8]), Form>
    ensures { GivesForm (λ x. (x.0, x.1.now)) result (taken_read bytes.now) }
{
    let (number, rest) = read_number(bytes, u64::MAX)?;
    let (fresh, rest) = read_flag(rest)?;
    let (in_window, rest) = read_flag(rest)?;
    Ok((
        Taken {
            number,
            fresh,
            in_window,
        },
        rest,
    ))
}
