//! A handle of the runtime whose monotonic clock is one of the host's, by its number.

ghost use Rattle.std.specs.Prelude.{◌≡◌};

use crate::clocks::{HostClock, HostClocks};
use std::alloc::{Alloc, Allocator};
use std::env::FillError;
use std::fmt::Display;
use std::fs::{FileTimes, Files, Metadata, OpenOptions, Permissions};
use std::io::{self, Eprint, Input, Lines, PipeReader, PipeWriter};
use std::net::{Net, SocketAddr, UdpSocket};
use std::os::fd::{BorrowedFd, OwnedFd};
use std::os::unix::net::{SocketAddr as UnixAddr, UnixStream};
use std::path::PathBuf;
use std::random::RandomSource;
use std::rt::Env;
use std::sync::Wait;
use std::thread::Threads;
use std::time::{Clock, Duration};

/// A handle of the runtime, but for its monotonic clock, which is this clock of the host. Whoever has it reads no other. A
/// test can give another handle in its place.
#[derive(Clone, Copy)]
pub struct ByClock<R> {
    rt: R,
    clock: HostClock,
}

impl<R> ByClock<R> {
    /// The handle `rt` with this monotonic clock.
    pub fn new(rt: R, clock: HostClock) -> ByClock<R>
        ensures { result ≡ record { rt = rt; clock = clock } }
    {
        ByClock { rt, clock }
    }

    /// The handle with the clock of its own.
    pub fn handle(&self) -> &R
        ensures { result.now ≡ self.now.rt }
    {
        &self.rt
    }
}

/// A handle that can have another monotonic clock.
pub trait ByClocks: Sized {
    /// The same handle, but for its monotonic clock, which is this one.
    fn by(&self, clock: HostClock) -> Self;
}

impl<R: Copy> ByClocks for ByClock<R> {
    fn by(&self, clock: HostClock) -> ByClock<R> {
        ByClock { rt: self.rt, clock }
    }
}

impl<R: HostClocks> HostClocks for ByClock<R> {
    fn read_clock(&self, clock: HostClock) -> io::Result<Duration> {
        self.rt.read_clock(clock)
    }

    fn read_boot(&self) -> io::Result<Duration> {
        self.rt.read_boot()
    }
}

impl<R: Clock + HostClocks> Clock for ByClock<R> {
    fn monotonic(&self) -> io::Result<Duration> {
        self.rt.read_clock(self.clock)
    }

    fn since_1970(&self) -> io::Result<Duration> {
        self.rt.since_1970()
    }

    fn sleep(&self, duration: Duration) {
        self.rt.sleep(duration)
    }
}

impl<R: Wait> Wait for ByClock<R> {}

impl<R: Threads> Threads for ByClock<R> {}

impl<R: Alloc> Alloc for ByClock<R> {
    type A = R::A;

    fn alloc(&self) -> R::A {
        self.rt.alloc()
    }
}

impl<R: RandomSource> RandomSource for ByClock<R> {
    fn fill_bytes(&self, buf: &mut [u8]) -> io::Result<()> {
        self.rt.fill_bytes(buf)
    }
}

impl<R: Eprint> Eprint for ByClock<R> {
    fn eprint<D: Display + Drop>(&self, value: D) -> io::Result<()> {
        self.rt.eprint(value)
    }

    fn eprintln<D: Display + Drop>(&self, value: D) -> io::Result<()> {
        self.rt.eprintln(value)
    }
}

impl<R: Env> Env for ByClock<R> {
    fn arg(&self, i: usize, buf: &mut [u8]) -> Result<usize, FillError> {
        self.rt.arg(i, buf)
    }

    fn var(&self, name: &str, buf: &mut [u8]) -> Result<usize, FillError> {
        self.rt.var(name, buf)
    }

    fn var_at(&self, i: usize, buf: &mut [u8]) -> Result<usize, FillError> {
        self.rt.var_at(i, buf)
    }

    fn current_dir(&self, buf: &mut [u8]) -> io::Result<usize> {
        self.rt.current_dir(buf)
    }

    fn set_current_dir(&self, path: &str) -> io::Result<()> {
        self.rt.set_current_dir(path)
    }
}

impl<R: Input> Input for ByClock<R> {
    type Reader = R::Reader;

    fn read_line<A: Allocator + Clone>(&self, buf: &mut String<A>) -> io::Result<usize> {
        self.rt.read_line(buf)
    }

    fn lines<A: Allocator>(&self, alloc: A) -> Lines<R::Reader, A> {
        self.rt.lines(alloc)
    }

    fn reader(&self) -> R::Reader {
        self.rt.reader()
    }
}

impl<R: Net> Net for ByClock<R> {
    type Stream = R::Stream;

    type Listener = R::Listener;

    fn bind(&self, addr: SocketAddr) -> io::Result<R::Listener> {
        self.rt.bind(addr)
    }

    fn connect(&self, addr: SocketAddr) -> io::Result<R::Stream> {
        self.rt.connect(addr)
    }

    fn connect_timeout(&self, addr: SocketAddr, timeout: Duration) -> io::Result<R::Stream> {
        self.rt.connect_timeout(addr, timeout)
    }

    fn bind_udp(&self, addr: SocketAddr) -> io::Result<UdpSocket> {
        self.rt.bind_udp(addr)
    }

    fn lookup_host(&self, host: &str, port: u16, found: &mut [SocketAddr]) -> io::Result<usize> {
        self.rt.lookup_host(host, port, found)
    }

    fn connect_unix(&self, addr: &UnixAddr) -> io::Result<UnixStream> {
        self.rt.connect_unix(addr)
    }

    fn unix_pair(&self) -> io::Result<(UnixStream, UnixStream)> {
        self.rt.unix_pair()
    }

    fn unix_socket(&self) -> io::Result<OwnedFd> {
        self.rt.unix_socket()
    }
}

impl<R: Files> Files for ByClock<R> {
    type File = R::File;

    type Dir = R::Dir;

    fn open_file(&self, how: &OpenOptions, path: &str) -> io::Result<R::File> {
        self.rt.open_file(how, path)
    }

    fn open_dir(&self, path: &str) -> io::Result<R::Dir> {
        self.rt.open_dir(path)
    }

    fn metadata(&self, path: &str) -> io::Result<Metadata> {
        self.rt.metadata(path)
    }

    fn symlink_metadata(&self, path: &str) -> io::Result<Metadata> {
        self.rt.symlink_metadata(path)
    }

    fn copy(&self, from: &str, to: &str) -> io::Result<u64> {
        self.rt.copy(from, to)
    }

    fn rename(&self, from: &str, to: &str) -> io::Result<()> {
        self.rt.rename(from, to)
    }

    fn remove_file(&self, path: &str) -> io::Result<()> {
        self.rt.remove_file(path)
    }

    fn create_dir(&self, path: &str) -> io::Result<()> {
        self.rt.create_dir(path)
    }

    fn remove_dir(&self, path: &str) -> io::Result<()> {
        self.rt.remove_dir(path)
    }

    fn remove_dir_all<B: Allocator>(&self, alloc: B, path: &str) -> io::Result<()> {
        self.rt.remove_dir_all(alloc, path)
    }

    fn canonicalize<B: Allocator>(&self, alloc: B, path: &str) -> io::Result<PathBuf<B>> {
        self.rt.canonicalize(alloc, path)
    }

    fn read_link<B: Allocator>(&self, alloc: B, path: &str) -> io::Result<PathBuf<B>> {
        self.rt.read_link(alloc, path)
    }

    fn hard_link(&self, original: &str, link: &str) -> io::Result<()> {
        self.rt.hard_link(original, link)
    }

    fn set_permissions(&self, path: &str, perm: Permissions) -> io::Result<()> {
        self.rt.set_permissions(path, perm)
    }

    fn symlink(&self, original: &str, link: &str) -> io::Result<()> {
        self.rt.symlink(original, link)
    }

    fn pipe(&self) -> io::Result<(PipeReader, PipeWriter)> {
        self.rt.pipe()
    }

    fn chown(&self, path: &str, uid: Option<u32>, gid: Option<u32>) -> io::Result<()> {
        self.rt.chown(path, uid, gid)
    }

    fn lchown(&self, path: &str, uid: Option<u32>, gid: Option<u32>) -> io::Result<()> {
        self.rt.lchown(path, uid, gid)
    }

    fn create_dir_with_mode(&self, path: &str, mode: u32) -> io::Result<()> {
        self.rt.create_dir_with_mode(path, mode)
    }

    fn bind_unix(&self, socket: BorrowedFd<'_>, addr: &UnixAddr) -> io::Result<()> {
        self.rt.bind_unix(socket, addr)
    }
}
