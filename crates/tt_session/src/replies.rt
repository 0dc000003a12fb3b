//! The replies to lines.

ghost use Rattle.std.specs.Prelude.{◌≡◌, ◌+◌, ◌≤◌, ◌++◌, length};
ghost use Rattle.tt_session.specs.Replies.{text_of, is_refused};
ghost use Rattle.tt_session.specs.Steps.{reply_room};

use arrayvec::ArrayVec;
use tt_publish::Reading;
use tt_text::put_line;

/// The reply to a line.
#[derive(Clone, Copy, Debug, PartialEq, Eq)]
pub enum LineReply {
    /// `now EARLIEST LATEST`: a reading.
    Now(Reading),
    /// `yes`: the time has surely passed, or has surely not arrived.
    Yes,
    /// `no`: this is not sure.
    No,
    /// `committed ID S`: the commit is released.
    Committed {
        /// Its number in the session.
        number: u64,
        /// Its stamp, in nanoseconds.
        stamp: u64,
    },
    /// `waiting ID S`: the commit is pending.
    Waiting {
        /// Its number in the session.
        number: u64,
        /// Its stamp, in nanoseconds.
        stamp: u64,
    },
    /// `leased LO HI`: the stamps of the session lie in this lease.
    Leased {
        /// Its lower end, in nanoseconds.
        lo: u64,
        /// Its upper end, in nanoseconds.
        hi: u64,
    },
    /// `refused N`: the session or the service refused with this number.
    Refused(u16),
}

impl LineReply {
    /// Whether it is a refusal.
    pub(crate) fn is_refused(&self) -> bool
        ensures { result ≡ is_refused self.now }
    {
        matches!(self, LineReply::Refused(_))
    }

    /// The line of the reply, with its line feed: at most 52 bytes.
    pub(crate) fn text(&self) -> ArrayVec<u8, 64>
        ensures { result.items ≡ text_of self.now }
    {
        let mut text = ArrayVec::new();
        self.put(&mut text);
        text
    }

    /// Puts the line of the reply, with its line feed, behind these bytes: at most 52 bytes. Requires: 64 bytes of room.
    pub(crate) fn put<const N: usize>(&self, bytes: &mut ArrayVec<u8, N>)
        requires room { length bytes.old.items + reply_room ≤ N }
        ensures { bytes.new.items ≡ bytes.old.items ++ text_of self.now }
    {
        match self {
            LineReply::Now(reading) => {
                put_line(bytes, "now", &[reading.earliest(), reading.latest()])
            }
            LineReply::Yes => put_line(bytes, "yes", &[]),
            LineReply::No => put_line(bytes, "no", &[]),
            LineReply::Committed { number, stamp } => {
                put_line(bytes, "committed", &[*number, *stamp])
            }
            LineReply::Waiting { number, stamp } => put_line(bytes, "waiting", &[*number, *stamp]),
            LineReply::Leased { lo, hi } => put_line(bytes, "leased", &[*lo, *hi]),
            LineReply::Refused(number) => put_line(bytes, "refused", &[u64::from(*number)]),
        }
    }
}
