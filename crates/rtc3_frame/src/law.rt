//! Reading and spelling are one.

ghost use Rattle.byte_laws.specs.Spelling.{ReadingIsSpelling};
ghost use Rattle.rtc3_frame.specs.Frame.{IsFrame, fields_at, frame_bytes};

/// The law of frames, said of lists: bytes are read as fields exactly where they are spelled by them.
pub fn reading_is_spelling()
    ensures { ReadingIsSpelling fields_at IsFrame frame_bytes }
{}
