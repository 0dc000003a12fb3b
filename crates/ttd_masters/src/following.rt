//! The NTP servers of a master: their keys, and the threads that ask those on other hosts.

ghost use Rattle.std.specs.Prelude.{◌≡◌};
ghost use Rattle.ttd_masters.specs.Upstreams.{plan_of as plan_for};

use crate::faults::StartFault;
use crate::files::bytes_of;
use crate::hosts::AsksServers;
use crate::references::{KnownTime, NtpServers};
use crate::upstreams::{Upstream, every_of, follow};
use std::fs::{File, Files};
use std::io::{Eprint, ErrorKind};
use std::net::SocketAddr;
use std::random::RandomSource;
use std::thread;
use tt_files::Reason;
use tt_fuse::check_counts;
use tt_host::{Host, ServiceHost};
use tt_ntp::PacketKey;
use tt_report::Reporter;
use tt_upstream::{NtpKeyFault, Plan, packet_key_of};
use ttd_words::NtpTime;

/// What a server is asked by: the drift of this computer's clock, the margin, the pause between requests, how old an answer may
/// be, and whether it may follow its own clock alone.
fn plan_of(time: &NtpTime<'_>, is_near: bool) -> Plan
    ensures { result ≡ plan_for time.now is_near }
{
    Plan {
        drift: time.drift,
        margin: time.margin,
        every: every_of(time.every, is_near),
        max_age: time.max_age,
        takes_local: time.local,
    }
}

/// The key under which the servers are asked. None if they are asked without one. If the file of keys is refused, standard
/// error says why.
fn key_of<H: Files<File = File> + Eprint + AllocGlobal>(
    rt: &H,
    time: &NtpTime<'_>,
) -> Result<Option<PacketKey>, StartFault> {
    let (Some(number), Some(path)) = (time.key, time.keys) else {
        return Ok(None);
    };
    let text = match bytes_of(rt, rt.alloc(), path) {
        Ok(text) => text,
        Err(fault) => {
            let _ = eprint!(rt; "ttd: {path}: {fault}\n");
            return Err(fault);
        }
    };
    match packet_key_of(&text, number) {
        Ok(key) => Ok(Some(key)),
        Err(fault) => {
            say_refusal(rt, path, number, fault);
            Err(StartFault::NtpKeys(fault))
        }
    }
}

/// Says on standard error why a file of keys gives no key with this number.
fn say_refusal<H: Eprint>(rt: &H, path: &str, number: u32, fault: NtpKeyFault) {
    let _ = eprint!(rt; "{path}: key {number}: {fault}\n");
}

/// The server at this address, which has this place among the servers.
fn upstream_of<H: Host + RandomSource>(
    rt: &H,
    time: &NtpTime<'_>,
    place: u64,
    address: SocketAddr,
) -> Result<Upstream, StartFault> {
    let key = key_of(rt, time)?;
    if rt.random_bits().is_none() {
        return Err(StartFault::NoRandom);
    }
    let plan = plan_of(time, address.ip().is_loopback());
    match Upstream::new(rt, place, address, key, plan) {
        Ok(upstream) => Ok(upstream),
        Err(error) if error.kind() == ErrorKind::OutOfMemory => Err(StartFault::Memory),
        Err(error) => Err(StartFault::CannotAsk(address, Reason::of(&error))),
    }
}

/// Starts the thread that asks a server on another host.
fn start_following<H: ServiceHost + AsksServers>(
    rt: &H,
    reporter: &Reporter,
    upstream: Upstream,
) -> Result<(), StartFault> {
    let theirs = reporter.try_clone()?;
    let rt = *rt;
    match thread::spawn(&rt, move || follow(&rt, upstream, &theirs)) {
        Ok(_) => Ok(()),
        Err(_) => Err(StartFault::NoThread),
    }
}

/// The servers of a master. Those on other hosts are asked from now on.
///
/// Refuses with 1601 `BadPlan` where there are more than 16 servers or more than may be faulty, with 1604, 1603 or 2411 to
/// 2414 where the file of keys gives no key, with 1829 where there are no random bytes, with 1501 where a socket can't be had,
/// with 1816 where a thread can't be started, and with 1 where it is out of memory.
pub(crate) fn servers_of<'a, H: ServiceHost + AsksServers>(
    rt: &'a H,
    reporter: &'a Reporter,
    time: &NtpTime<'_>,
) -> Result<KnownTime<'a, H>, StartFault> {
    if check_counts(time.servers.len(), time.faulty as usize).is_err() {
        return Err(StartFault::BadPlan);
    }
    let mut near = Vec::new(rt.alloc());
    let mut servers = Vec::new(rt.alloc());
    for (place, address) in time.servers.iter().enumerate() {
        let upstream = upstream_of(rt, time, place as u64, *address)?;
        servers.push(upstream.shared()?)?;
        if address.ip().is_loopback() {
            near.push(upstream)?;
        } else {
            start_following(rt, reporter, upstream)?;
        }
    }
    let faulty = time.faulty as usize;
    Ok(KnownTime::Ntp(NtpServers::new(rt, reporter, near, servers, faulty)))
}
