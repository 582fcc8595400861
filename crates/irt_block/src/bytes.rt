//! Bytes of a class.

ghost use Rattle.std.specs.Prelude.{◌≡◌};
ghost use Rattle.irt_block.specs.Reading.{is_of, kind_of};

use crate::fault::BlockKind;

/// What the bytes of a field have to be.
#[derive(Clone, Copy, PartialEq, Eq)]
pub enum ByteClass {
    /// Padding.
    Zero,
    /// The letters of a sync domain's name: a-z, 0-9, `-` and `.`.
    Letter,
}

impl ByteClass {
    /// Whether a byte is of the class.
    pub fn has(self, byte: u8) -> bool
        ensures { result ≡ is_of self byte }
    {
        match self {
            ByteClass::Zero => byte == 0,
            ByteClass::Letter => matches!(byte, b'a'..=b'z' | b'0'..=b'9' | b'-' | b'.'),
        }
    }

    /// The fault of a byte that is not.
    pub fn fault(self) -> BlockKind
        ensures { result ≡ kind_of self }
    {
        match self {
            ByteClass::Zero => BlockKind::BadPad,
            ByteClass::Letter => BlockKind::BadValue,
        }
    }
}
