//! Why a call failed.

ghost use Rattle.std.specs.Prelude.{◌≡◌};
ghost use Rattle.std.specs.IoError.{error_kind, raw_os_error};
ghost use Rattle.tt_files.specs.Reason.{number_in, reason_of};

use std::fmt::{self, Display, Formatter, Write};
use std::io::{Error, ErrorKind};

/// The system's number for what is not there.
const NO_ENTRY: i32 = 2;

/// The system's number for an address that another socket has.
const IN_USE: i32 = 98;

/// Why a call failed, as a value that can be copied and compared. It is shown as the system names it, with its number.
#[derive(Clone, Copy, Debug, PartialEq, Eq)]
pub enum Reason {
    /// The system refused, with this number (errno).
    System(i32),
    /// What is at the path is not a regular file.
    NotRegular,
    /// What is at the path is not a folder.
    NotFolder,
    /// The system's number is not known: a read or a write failed, a file is shorter than its size, or memory ran out.
    Other,
}

impl Reason {
    /// Nothing is there.
    pub const NOTHING: Reason = Reason::System(NO_ENTRY);

    /// Something listens at the address already: what the system says of a second listener.
    pub const IN_USE: Reason = Reason::System(IN_USE);

    /// The reason in an error of a call: the system's number, if it has one. Without a number it is `System(2)` where nothing
    /// is there, `NotRegular` where what is there is refused as [`open_regular`](crate::open_regular) does, and else `Other`.
    pub fn of(error: &Error) -> Reason
        ensures value { result ≡ reason_of (raw_os_error error.now) (error_kind error.now) }
    {
        match error.raw_os_error() {
            Some(number) => Reason::System(number),
            None => match error.kind() {
                ErrorKind::NotFound => Reason::NOTHING,
                ErrorKind::InvalidInput => Reason::NotRegular,
                _ => Reason::Other,
            },
        }
    }

    /// The system's number, errno, or 0 where there is none.
    pub fn number(&self) -> u32
        ensures value { result ≡ number_in self.now }
    {
        match self {
            Reason::System(number) if *number > 0 => number.unsigned_abs(),
            _ => 0,
        }
    }
}

impl Display for Reason {
    fn fmt<W: Write>(&self, f: &mut Formatter<W>) -> fmt::Result {
        match self {
            Reason::System(number) => Display::fmt(&Error::from_raw_os_error(*number), f),
            Reason::NotRegular => f.write_str("not a regular file"),
            Reason::NotFolder => f.write_str("not a folder"),
            Reason::Other => f.write_str("reading or writing failed"),
        }
    }
}
