//! What the arguments can ask for.

use std::net::SocketAddr;
use tt_master::Act;
use tt_span::Drift;
use tt_status::LogFormat;

/// A command that reads its input and ends, with its options.
#[derive(Clone, Copy)]
pub enum Command {
    /// `age`: ages the answer that is read.
    Age {
        /// The drift of the clock: [`DEFAULT_DRIFT`](tt_daemon::DEFAULT_DRIFT) if it was not given.
        drift: Drift,
        /// The clock when the poll was sent, in nanoseconds.
        sent: u64,
        /// The clock when the answer came, in nanoseconds.
        got: u64,
        /// The clock now, in nanoseconds.
        clock: u64,
    },
    /// `fuse`: fuses the spans that are read, and certifies the fusion.
    Fuse,
    /// `check`: checks a certificate for the spans that are read.
    Check,
    /// `run`: runs the script that is read, and reports on the run.
    Run,
    /// `trace`: runs the script that is read, and prints each event with its reply.
    Trace,
    /// `twin`: gives the twin of a reading in the run of the script that is read.
    Twin {
        /// The place of the reading's event among the events, counted from 0.
        event: u64,
        /// The end of the reading at which the true time lies in the twin.
        side: Side,
    },
    /// `picture`: draws the run of the script that is read.
    Picture,
    /// `live`: runs the machine of the script that is read, in threads.
    Live,
    /// `judge`: judges whether the history of commits that is read is externally consistent.
    Judge,
}

/// An end of a reading.
#[derive(Clone, Copy)]
pub enum Side {
    /// `low`: the earliest time that it allows.
    Low,
    /// `high`: the latest time that it allows.
    High,
}

/// How far a master's clock is off on purpose, in nanoseconds.
#[derive(Clone, Copy)]
pub enum Offset {
    /// It shows this much more than this computer's clock.
    Later(u64),
    /// It shows this much less than this computer's clock.
    Earlier(u64),
}

/// Where a machine is asked.
#[derive(Clone, Copy)]
pub enum Peer<'a> {
    /// At this port of 127.0.0.1.
    Port(u16),
    /// At the Unix socket with this path.
    Path(&'a str),
}

/// Where the status comes from that is shown.
#[derive(Clone, Copy)]
pub enum TopPlace<'a> {
    /// From this port of 127.0.0.1, at which a machine serves it over HTTP.
    Port(u16),
    /// From the file with this path.
    File(&'a str),
}

/// What a master's answers stand on.
#[derive(Drop)]
pub enum MasterTime<'a> {
    /// This computer's real-time clock, and how wrong its operator says that it may be.
    Stated {
        /// What the clock may be wrong by, in nanoseconds, at most [`MAX_TIME`](tt_span::MAX_TIME).
        uncertainty: u64,
        /// The drift of this computer's oscillator: [`DEFAULT_DRIFT`](tt_daemon::DEFAULT_DRIFT) if it was not given.
        drift: Drift,
        /// How far the clock is off on purpose.
        offset: Offset,
        /// Its acts, at least one: one for each poll in order, and the last one for all further polls.
        acts: Vec<Act>,
    },
    /// A hardware clock of this computer, which shows TAI, and how wrong its operator says that it may be.
    Device {
        /// The path of its device.
        path: &'a str,
        /// How far TAI is ahead of UTC, in seconds, at most 100.
        tai_offset: u64,
        /// What the clock may be wrong by, in nanoseconds, at most [`MAX_TIME`](tt_span::MAX_TIME).
        uncertainty: u64,
        /// The drift of this computer's oscillator: [`DEFAULT_DRIFT`](tt_daemon::DEFAULT_DRIFT) if it was not given.
        drift: Drift,
    },
    /// What NTP servers say.
    Ntp(NtpTime<'a>),
}

/// How a master stands on NTP servers.
#[derive(Drop)]
pub struct NtpTime<'a> {
    /// The addresses of the servers: from 1 to 16, with ports above 0, and none is there twice.
    pub servers: Vec<SocketAddr>,
    /// The most servers that may be wrong: twice as many are fewer than there are servers.
    pub faulty: u64,
    /// What a server may be wrong by beyond what it says, in nanoseconds, at most [`MAX_TIME`](tt_span::MAX_TIME).
    pub margin: u64,
    /// The time from one request to the next, in nanoseconds, from a millisecond to a day. None: it was not given.
    pub every: Option<u64>,
    /// The drift of this computer's oscillator: [`DEFAULT_DRIFT`](tt_daemon::DEFAULT_DRIFT) if it was not given.
    pub drift: Drift,
    /// The greatest age of a reply, in nanoseconds, from a millisecond to a day: 1024 seconds if it was not given.
    pub max_age: u64,
    /// The number of the key with which packets are signed. None: they are not signed.
    pub key: Option<u32>,
    /// The path of the file with this key: it is given exactly where the number is.
    pub keys: Option<&'a str>,
    /// Whether a server is taken whose time comes from its own clock alone.
    pub local: bool,
}

/// A command that speaks to other processes, with its options.
#[derive(Drop)]
pub enum Service<'a> {
    /// `master`: answers polls until it is ended.
    Master {
        /// The number of the source that it is, at most [`MAX_SOURCE`](tt_poll::MAX_SOURCE).
        source: u64,
        /// The address at which it is polled: one of this host if there is no file of keys.
        listen: SocketAddr,
        /// What its answers stand on.
        time: MasterTime<'a>,
        /// The width of an answer in nanoseconds above which its log warns, at most
        /// [`MAX_TIME`](tt_span::MAX_TIME). None: it never warns of it.
        warn_width: Option<u64>,
        /// The form of its log.
        log: LogFormat,
        /// The path of its file of keys: it answers polls that are sealed under one of them, and no others. None: it
        /// answers open polls of this host.
        keys: Option<&'a str>,
        /// The path of its status file. None: it writes none.
        status: Option<&'a str>,
        /// The address of its pages over HTTP, with a port above 0. None: it has none.
        http: Option<SocketAddr>,
    },
    /// `serve`: runs a machine until it is ended.
    Serve {
        /// The path of its configuration.
        file: &'a str,
        /// Whether it only says what it would do.
        check: bool,
        /// Whether it ends when standard input ends.
        until_eof: bool,
    },
    /// `ask`: asks a machine.
    Ask {
        /// Where the machine listens.
        peer: Peer<'a>,
        /// The words of the line, with one space between two words. None if there are no words.
        line: Option<String>,
        /// The most times that a line is sent again while nothing is published, at most 9999.
        retry: u64,
    },
    /// `read`: reads the time from a shared file.
    Read {
        /// The path of the file.
        file: &'a str,
    },
    /// `top`: shows the status of a machine.
    Top {
        /// Where the status comes from.
        place: TopPlace<'a>,
        /// Whether it is shown once. A drawing is.
        once: bool,
        /// The columns of the table, from 40 to 300. None: they were not given.
        columns: Option<u64>,
        /// Whether it is drawn, as SVG.
        svg: bool,
    },
    /// `key`: makes a line for a file of keys.
    Key {
        /// The number of the key. None: it is drawn.
        id: Option<u32>,
        /// A name for the reader of the file.
        name: Option<&'a str>,
    },
}

/// What the arguments ask for.
#[derive(Drop)]
pub enum Asked<'a> {
    /// To run a command.
    Run(Command),
    /// To run a service.
    Serve(Service<'a>),
    /// The help, of the program or of one command, or the program's version: [`help_text`](crate::help_text) gives it.
    Help,
}
