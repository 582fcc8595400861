//! That what lies in memory as bytes are numbers below 256.

ghost use Rattle.irt_base.specs.Valid.{AreBytes};

/// Each byte is below 256.
pub fn are_bytes(bytes: &[u8])
    ensures { AreBytes bytes.now }
{
    let _length = bytes.len();
}
