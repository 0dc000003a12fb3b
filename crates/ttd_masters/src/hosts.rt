//! What the threads that ask NTP servers want of this computer.

use std::io;
use std::net::{Net, SocketAddr, UdpSocket};
use std::random::RandomSource;
use tt_host::{HostClocks, Sleep, SleepWatch};

/// What asking servers wants of this computer. It stands in place of `Net` and `RandomSource`, since a thread that is
/// started cannot take with it a bound that names a type.
pub trait AsksServers: HostClocks {
    /// A socket at this address of its own.
    fn bind(&self, own: SocketAddr) -> io::Result<UdpSocket>;

    /// 64 random bits of the system. None where there are none.
    fn random_bits(&self) -> Option<u64>;

    /// A look of the watch for sleep.
    fn look(&self, watch: &mut SleepWatch) -> Sleep;
}

impl<R: HostClocks + Net + RandomSource> AsksServers for R {
    fn bind(&self, own: SocketAddr) -> io::Result<UdpSocket> {
        UdpSocket::bind(self, own)
    }

    fn random_bits(&self) -> Option<u64> {
        let mut bytes = [0; 8];
        self.fill_bytes(&mut bytes).ok()?;
        Some(u64::from_be_bytes(bytes))
    }

    fn look(&self, watch: &mut SleepWatch) -> Sleep {
        watch.look(self)
    }
}
