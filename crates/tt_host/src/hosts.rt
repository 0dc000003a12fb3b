//! What a program needs of the host that it runs on, as one bound in place of a dozen.

use crate::clocks::HostClocks;
use std::fs::{File, Files};
use std::io::Eprint;
use std::net::{Net, TcpListener, TcpStream};
use std::random::RandomSource;
use std::sync::Wait;
use std::thread::Threads;
use std::time::Clock;

/// What each command needs: memory, clocks, files, sockets, and standard error. The runtime handle has all of it.
pub trait Host: AllocGlobal
    + Clock
    + HostClocks
    + Eprint
    + Files<File = File>
    + Net<Listener = TcpListener, Stream = TcpStream> {}

impl<H> Host for H
where
    H: AllocGlobal
        + Clock
        + HostClocks
        + Eprint
        + Files<File = File>
        + Net<Listener = TcpListener, Stream = TcpStream>,
{}

/// What a service needs besides: threads that outlive the call that starts them, waits, and random bytes.
pub trait ServiceHost: Host + Threads + Wait + Sync + RandomSource + Copy + Send + 'static {}

impl<H> ServiceHost for H
where
    H: Host + Threads + Wait + Sync + RandomSource + Copy + Send + 'static,
{}
