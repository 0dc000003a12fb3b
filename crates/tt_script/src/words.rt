//! The words of events.

ghost use Rattle.std.specs.Prelude.{◌≡◌};
ghost use Rattle.tt_script.specs.Words.{word_of};

use std::fmt::{self, Display, Formatter, Write};

/// The word of an event, which names its action.
#[derive(Clone, Copy, Debug, PartialEq, Eq)]
pub enum Word {
    Send,
    Answer,
    Forge,
    Deliver,
    Fuse,
    Arrive,
    Read,
    Stamp,
    Queue,
    Release,
    Lease,
    Restart,
}

impl Display for Word {
    fn fmt<W: Write>(&self, f: &mut Formatter<W>) -> fmt::Result {
        f.write_str(match self {
            Word::Send => "send",
            Word::Answer => "answer",
            Word::Forge => "forge",
            Word::Deliver => "deliver",
            Word::Fuse => "fuse",
            Word::Arrive => "arrive",
            Word::Read => "read",
            Word::Stamp => "stamp",
            Word::Queue => "queue",
            Word::Release => "release",
            Word::Lease => "lease",
            Word::Restart => "restart",
        })
    }
}

/// The word of this text.
pub(crate) fn word_of(text: &str) -> Option<Word>
    ensures { result ≡ word_of text.now }
{
    match text {
        "send" => Some(Word::Send),
        "answer" => Some(Word::Answer),
        "forge" => Some(Word::Forge),
        "deliver" => Some(Word::Deliver),
        "fuse" => Some(Word::Fuse),
        "arrive" => Some(Word::Arrive),
        "read" => Some(Word::Read),
        "stamp" => Some(Word::Stamp),
        "queue" => Some(Word::Queue),
        "release" => Some(Word::Release),
        "lease" => Some(Word::Lease),
        "restart" => Some(Word::Restart),
        _ => None,
    }
}
