//! Options of sockets that the standard library does not set.

use libc::net::{SO_RCVBUF, SO_SNDBUF, SOL_SOCKET};
use std::os::fd::AsRawFd;

/// Sets an option of a socket, which is a number. Answers whether the kernel took it.
fn set_option(descriptor: i32, name: Buffer, bytes: u32) -> bool {
    let mut value = [0; 16];
    value[..4].copy_from_slice(&bytes.to_le_bytes());
    let set = match name {
        Buffer::Sending => unsafe {
            libc::net::setsockopt(descriptor, SOL_SOCKET, SO_SNDBUF, &value, 4)
        },
        Buffer::Receiving => unsafe {
            libc::net::setsockopt(descriptor, SOL_SOCKET, SO_RCVBUF, &value, 4)
        },
    };
    set == 0
}

/// A buffer of the kernel for a socket.
#[derive(Clone, Copy)]
enum Buffer {
    /// What was sent and not taken yet.
    Sending,
    /// What came and was not read yet.
    Receiving,
}

/// Bounds what the kernel keeps of what this socket sends, and of what comes to it, to so many bytes each. Linux takes twice the
/// number, as its own records count, and no less than some two thousand. Answers whether it took both.
pub fn bound_buffers<S: AsRawFd>(socket: &S, bytes: u32) -> bool {
    let descriptor = socket.as_raw_fd();
    let sending = set_option(descriptor, Buffer::Sending, bytes);
    set_option(descriptor, Buffer::Receiving, bytes) && sending
}
