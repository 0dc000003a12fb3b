//! The constants of the two formats, TTP1 and TTP2.

ghost use Rattle.std.specs.Prelude.{◌≡◌, ◌≤◌};
ghost use Rattle.tt_poll.specs.Format.{magic_of, format_of, request_len_of, answer_len_of};

/// The length of a request of TTP1, in bytes.
pub const REQUEST_LEN: usize = 16;

/// The length of an answer of TTP1, in bytes.
pub const ANSWER_LEN: usize = 32;

/// The length of a request of TTP2, in bytes.
pub const REQUEST2_LEN: usize = 24;

/// The length of an answer of TTP2, in bytes.
pub const ANSWER2_LEN: usize = 40;

/// The kind of a request.
pub(crate) const REQUEST_KIND: u8 = 1;

/// The kind of an answer.
pub(crate) const ANSWER_KIND: u8 = 2;

/// A format of poll messages.
#[derive(Clone, Copy, Debug, PartialEq, Eq)]
pub enum Format {
    /// TTP1, whose messages have no epoch.
    Ttp1,
    /// TTP2, whose messages have an epoch.
    Ttp2,
}

impl Format {
    /// The format in which bytes are read: TTP2 if they begin with `TTP2`, otherwise TTP1. A message of either format
    /// is read in its own. Other bytes are a message of neither.
    pub fn of(bytes: &[u8]) -> Format
        ensures value { result ≡ format_of bytes.now }
    {
        if bytes.starts_with(&Format::Ttp2.magic()) {
            Format::Ttp2
        } else {
            Format::Ttp1
        }
    }

    /// The first four bytes of each message.
    pub(crate) fn magic(self) -> [u8; 4]
        ensures { result ≡ magic_of self }
    {
        match self {
            Format::Ttp1 => [b'T', b'T', b'P', b'1'],
            Format::Ttp2 => [b'T', b'T', b'P', b'2'],
        }
    }

    /// The length of a request, in bytes.
    pub(crate) fn request_len(self) -> usize
        ensures value { result ≡ request_len_of self }
        ensures head { 16 ≤ result }
    {
        match self {
            Format::Ttp1 => REQUEST_LEN,
            Format::Ttp2 => REQUEST2_LEN,
        }
    }

    /// The length of an answer, in bytes.
    pub(crate) fn answer_len(self) -> usize
        ensures value { result ≡ answer_len_of self }
        ensures head { 16 ≤ result }
    {
        match self {
            Format::Ttp1 => ANSWER_LEN,
            Format::Ttp2 => ANSWER2_LEN,
        }
    }
}
