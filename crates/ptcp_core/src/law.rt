//! Reading and spelling are one.

ghost use Rattle.byte_laws.specs.Spelling.{ReadingIsSpelling};
ghost use Rattle.ptcp_core.specs.Messages.{IsMsg, msg_at, msg_bytes};

/// The law of messages, said of lists: bytes are read as a message exactly where they are spelled by it.
pub fn reading_is_spelling()
    ensures { ReadingIsSpelling msg_at IsMsg msg_bytes }
{}
