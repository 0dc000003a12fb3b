//! Where clients connect: a TCP listener, or a Unix socket.

ghost use Rattle.std.specs.Prelude.{◌≡◌};
ghost use Rattle.std.specs.IoError.{error_kind, raw_os_error};
ghost use Rattle.tt_connections.specs.Path.{plan_of, is_left_by, is_same};
ghost use Rattle.tt_connections.specs.declared.listeners.ListenerFault.TheVariants.{Failed};
ghost use Rattle.tt_files.specs.Reason.{reason_of};

use std::fs::{self, Files};
use std::io::{self, ErrorKind};
use std::net::{Ipv4Addr, Net, TcpListener, TcpStream};
use std::os::fd::{AsRawFd, OwnedFd};
use std::os::unix::fs::{FileTypeExt, MetadataExt};
use std::os::unix::net::UnixListener;
use std::time::Duration;
use tt_files::Reason;
use tt_host::bound_buffers;

/// The longest wait of one read of a connection, in nanoseconds. So a worker soon sees that the machine ends, and that
/// another session has come.
pub const SLICE: u64 = 200_000_000;

/// The longest wait of one write of a connection, in nanoseconds: a client that does not read its replies keeps its worker
/// no longer.
const WRITE_SLICE: u64 = 1_000_000;

/// Why a Unix socket can't be listened at.
#[derive(Clone, Copy, Debug, PartialEq, Eq)]
pub enum ListenerFault {
    /// What is at the path is not a socket.
    NotSocket,
    /// Somebody listens at the path, or the system refused, for this reason.
    Failed(Reason),
}

/// What is at the path of a Unix socket.
#[derive(Clone, Copy)]
pub(crate) enum Found {
    /// Nothing.
    Nothing,
    /// A socket at which nobody listens: its machine was killed.
    Left,
    /// A socket at which somebody listens.
    Listened,
    /// What can't be looked at, or a socket of which it is not known whether somebody listens there.
    Unknown(Reason),
    /// A file, a folder, a symbolic link, or anything else that is not a socket.
    Other,
}

/// What has to be done at the path before a socket is bound there: whether a socket that was left is removed. Only a
/// socket at which nobody listens is ever removed.
fn plan_of(found: Found) -> Result<bool, ListenerFault>
    ensures value { result ≡ plan_of found }
{
    match found {
        Found::Nothing => Ok(false),
        Found::Left => Ok(true),
        Found::Listened => Err(ListenerFault::Failed(Reason::IN_USE)),
        Found::Unknown(reason) => Err(ListenerFault::Failed(reason)),
        Found::Other => Err(ListenerFault::NotSocket),
    }
}

/// Whether a bind that failed has left the socket that is found at its path then. It has if nobody listens there, unless
/// the bind failed because the path was taken.
fn is_left_by(was_taken: bool, found: Found) -> bool
    ensures value { result ≡ is_left_by was_taken found }
{
    matches!(found, Found::Left) && !was_taken
}

/// The device and the inode of a file.
#[derive(Clone, Copy, Debug, PartialEq, Eq)]
pub struct Identity {
    device: u64,
    inode: u64,
}

/// Whether what is at a path now is the socket that was bound there. It is not if either is not known.
fn is_same(bound: Option<Identity>, seen: Option<Identity>) -> bool
    ensures value { result ≡ is_same bound seen }
{
    match (bound, seen) {
        (Some(bound), Some(seen)) => bound.device == seen.device && bound.inode == seen.inode,
        _ => false,
    }
}

/// A listener for clients. Its `accept` does not wait.
#[derive(Drop)]
pub enum Listener {
    /// A TCP listener.
    Tcp(TcpListener),
    /// A Unix socket, and which file it is.
    Unix(UnixListener, Option<Identity>),
}

/// What one try to accept a connection gave.
pub(crate) enum Came {
    /// The connection of a client, ready to be served.
    Client(TcpStream),
    /// A connection that is not served.
    Nobody,
    /// No connection waits.
    Nothing,
    /// The system refused, for this reason.
    Failed(Reason),
}

impl Listener {
    /// The TCP listener at this port of 127.0.0.1.
    pub fn at_port<R: Net<Listener = TcpListener, Stream = TcpStream>>(
        rt: &R,
        port: u16,
    ) -> io::Result<Listener> {
        let listener = TcpListener::bind(rt, (Ipv4Addr::LOCALHOST, port))?;
        listener.set_nonblocking(true)?;
        Ok(Listener::Tcp(listener))
    }

    /// The Unix socket at this path. If a machine left a socket there, and nobody listens at it, it is removed first.
    ///
    /// Refuses with `NotSocket` if anything else is at the path, also a symbolic link, and with `Failed` and the reason if
    /// somebody listens there ([`Reason::IN_USE`]) or the socket can't be made. Then what is at the path is left alone, and a
    /// socket that this call had made there is removed. It does not wait.
    pub fn at_path<R: Files + Net>(rt: &R, path: &str) -> Result<Listener, ListenerFault> {
        let is_left = plan_of(found_at(rt, path))?;
        if is_left {
            fs::remove_file(rt, path).map_err(failed_by)?;
        }
        let listener = bound_at(rt, path)?;
        let made = listener.set_nonblocking(true);
        let listener = Listener::Unix(listener, identity_at(rt, path));
        match made {
            Ok(()) => Ok(listener),
            Err(error) => {
                listener.remove(rt, path);
                Err(failed_by(error))
            }
        }
    }

    /// Accepts the next connection, if one waits.
    pub(crate) fn accept(&self) -> Came {
        match self {
            Listener::Tcp(listener) => match listener.accept() {
                Ok((stream, peer)) => {
                    if !peer.ip().is_loopback() || stream.set_nodelay(true).is_err() {
                        return Came::Nobody;
                    }
                    ready(stream)
                }
                Err(error) => came_of(&error),
            },
            Listener::Unix(listener, _) => match listener.accept() {
                // The stream is used as a TCP stream, but only with calls that work on any stream socket.
                Ok((stream, _peer)) => ready(TcpStream::from(OwnedFd::from(stream))),
                Err(error) => came_of(&error),
            },
        }
    }

    /// The port of a TCP listener; None for a Unix socket.
    pub fn port(&self) -> Option<u16> {
        match self {
            Listener::Tcp(listener) => match listener.local_addr() {
                Ok(address) => Some(address.port()),
                Err(_) => None,
            },
            Listener::Unix(_, _) => None,
        }
    }

    /// The descriptor of the listener.
    pub(crate) fn descriptor(&self) -> i32 {
        match self {
            Listener::Tcp(listener) => listener.as_raw_fd(),
            Listener::Unix(listener, _) => listener.as_raw_fd(),
        }
    }

    /// Removes the Unix socket at this path, if it is the one that was bound there. It opens no file.
    pub fn remove<R: Files>(&self, rt: &R, path: &str) {
        let Listener::Unix(_, identity) = self else {
            return;
        };
        if is_same(*identity, identity_at(rt, path)) {
            let _ = fs::remove_file(rt, path);
        }
    }
}

/// The fault of a call that failed with this error.
fn failed_by(error: io::Error) -> ListenerFault
    ensures value { result ≡ Failed (reason_of (raw_os_error error) (error_kind error)) }
{
    ListenerFault::Failed(Reason::of(&error))
}

/// A listener that is bound at this path. The system first makes the socket there, and then listens at it: where only the
/// second fails, the socket is removed again.
fn bound_at<R: Files + Net>(rt: &R, path: &str) -> Result<UnixListener, ListenerFault> {
    let error = match UnixListener::bind(rt, path) {
        Ok(listener) => return Ok(listener),
        Err(error) => error,
    };
    if is_left_by(error.kind() == ErrorKind::AddrInUse, found_at(rt, path)) {
        let _ = fs::remove_file(rt, path);
    }
    Err(failed_by(error))
}

/// What is at this path. It does not wait for a listener that has no room.
fn found_at<R: Files + Net>(rt: &R, path: &str) -> Found {
    let metadata = match fs::symlink_metadata(rt, path) {
        Ok(metadata) => metadata,
        Err(error) => {
            return if error.kind() == ErrorKind::NotFound {
                Found::Nothing
            } else {
                Found::Unknown(Reason::of(&error))
            };
        }
    };
    if !metadata.file_type().is_socket() {
        return Found::Other;
    }
    match mio::net::UnixStream::connect(rt, path) {
        Ok(_) => Found::Listened,
        Err(error) => match error.kind() {
            ErrorKind::ConnectionRefused => Found::Left,
            // The listener has no room.
            ErrorKind::WouldBlock => Found::Listened,
            _ => Found::Unknown(Reason::of(&error)),
        },
    }
}

/// Which file is at this path. A symbolic link is not followed. None if it can't be seen.
fn identity_at<R: Files>(rt: &R, path: &str) -> Option<Identity> {
    match fs::symlink_metadata(rt, path) {
        Ok(metadata) => Some(Identity {
            device: metadata.dev(),
            inode: metadata.ino(),
        }),
        Err(_) => None,
    }
}

/// What a try to accept gave that ended with this kind of error. A connection that its client has ended meanwhile is
/// nobody's.
fn came_of(error: &io::Error) -> Came {
    match error.kind() {
        ErrorKind::WouldBlock => Came::Nothing,
        ErrorKind::Interrupted | ErrorKind::ConnectionAborted => Came::Nobody,
        _ => Came::Failed(Reason::of(error)),
    }
}

/// How many bytes the kernel is asked to keep of a connection, each way: it takes twice as many, so all of a session costs at most
/// 64 KiB, whatever its client sends and does not read.
const BUFFER: u32 = 12_288;

/// The connection, with a limit on the wait of its reads and writes, and on what the kernel keeps. It is not served if the limits
/// can't be set.
fn ready(stream: TcpStream) -> Came {
    let (read, write) = (
        Duration::from_nanos(SLICE),
        Duration::from_nanos(WRITE_SLICE),
    );
    if stream.set_read_timeout(Some(read)).is_err()
        || stream.set_write_timeout(Some(write)).is_err()
        || !bound_buffers(&stream, BUFFER)
    {
        return Came::Nobody;
    }
    Came::Client(stream)
}
