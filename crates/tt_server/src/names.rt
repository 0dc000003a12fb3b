//! The names of sources, which a thread of its own looks up.

ghost use Rattle.std.specs.Prelude.{◌≡◌, ◌<◌, IfSome, map};
ghost use Rattle.tt_server.specs.Name.{IsNews, has_missed, has_names, has_passed, is_found_again, is_lookup_due, is_long_ago, is_turn_due, lookups_after, lookups_asking, named_as, named_from, next_place, patience_of};

use crate::owns::{Reach, first_reached, reaches};
use std::alloc::Global;
use std::net::{Ipv4Addr, Net, SocketAddr, ToSocketAddrs};
use std::sync::atomic::{AtomicBool, AtomicU64, Ordering};
use std::sync::{Arc, Mutex, Wait};
use std::thread::{Parker, Threads};
use std::time::{Clock as SystemClock, Duration};
use std::{array, thread};
use tt_clock::reading_of;
use tt_daemon::MAX_SOURCES;
use tt_health::Answer;
use tt_settings::{MasterSettings, Pauses};

/// A minute, in nanoseconds: how long a source has to be silent before its name is looked up again, and how long it is
/// from one lookup of a name to the next.
const MINUTE: u64 = 60_000_000_000;

/// How often the thread looks whether a name is to be looked up, in nanoseconds.
const STEP: u64 = 1_000_000_000;

/// How many rounds an address is asked without an answer, where its name has another one.
const SILENCES: u64 = 4;

/// The most addresses of one name.
pub const MAX_FOUND: usize = 32;

/// What was found of the name of a source.
#[derive(Clone, Copy)]
pub(crate) struct Lookups {
    /// The address that the last lookup found that found one.
    pub(crate) address: Option<SocketAddr>,
    /// How many lookups found none, at most 2^64 - 1.
    pub(crate) missed: u64,
    /// Whether the last lookup found none.
    pub(crate) is_missing: bool,
}

/// Nothing was found.
pub(crate) const NO_LOOKUPS: Lookups = Lookups {
    address: None,
    missed: 0,
    is_missing: false,
};

impl Lookups {
    /// What is known after a lookup that found this address, or none. The one that was found before stays.
    fn after(self, found: Option<SocketAddr>) -> Lookups
        ensures { result ≡ lookups_after found self }
    {
        match found {
            Some(address) => Lookups {
                address: Some(address),
                missed: self.missed,
                is_missing: false,
            },
            None => Lookups {
                address: self.address,
                missed: self.missed.saturating_add(1),
                is_missing: true,
            },
        }
    }

    /// What is known once this address is asked, which the last lookup that found one had found, too.
    fn asking(self, next: Option<SocketAddr>) -> Lookups
        ensures { result ≡ lookups_asking next self }
    {
        match next {
            Some(address) => Lookups {
                address: Some(address),
                missed: self.missed,
                is_missing: self.is_missing,
            },
            None => self,
        }
    }
}

/// The address that is new after these lookups.
pub(crate) fn news_of(before: &Lookups, after: &Lookups) -> Option<SocketAddr>
    ensures value { IsNews before.now.address after.now.address result }
{
    let address = after.address?;
    match before.address {
        Some(known) if known == address => None,
        _ => Some(address),
    }
}

/// Whether a lookup since then found none.
pub(crate) fn has_missed(before: &Lookups, after: &Lookups) -> bool
    ensures value { result ≡ has_missed before.now after.now }
{
    before.missed < after.missed
}

/// Whether the last lookup found an address, and one before it, since then or just before, found none.
pub(crate) fn is_found_again(before: &Lookups, after: &Lookups) -> bool
    ensures value { result ≡ is_found_again before.now after.now }
{
    !after.is_missing && (before.is_missing || has_missed(before, after))
}

/// Whether a clock that shows `now` showed this a minute ago or earlier, or never did.
fn is_long_ago(clock: Option<u64>, now: u64) -> bool
    ensures { result ≡ is_long_ago clock now }
{
    match clock {
        Some(clock) => now.saturating_sub(clock) >= MINUTE,
        None => true,
    }
}

/// Whether the name of a source is to be looked up when the clock shows `now`: it was looked up last when it showed
/// `tried`, and the last answer of the source came at `answered`. So at least a minute passes from one lookup to the next,
/// and a source that answers keeps its address.
fn is_lookup_due(tried: Option<u64>, answered: Option<u64>, now: u64) -> bool
    ensures value { result ≡ is_lookup_due tried answered now }
{
    is_long_ago(tried, now) && is_long_ago(answered, now)
}

/// Whether a clock that shows `now` showed this so long ago or earlier, or never did.
fn has_passed(clock: Option<u64>, now: u64, length: u64) -> bool
    ensures { result ≡ has_passed clock now length }
{
    match clock {
        Some(clock) => now.saturating_sub(clock) >= length,
        None => true,
    }
}

/// Whether the next of the addresses of a source is to be asked when the clock shows `now`: it has two at least, the one that
/// is asked was taken when the clock showed `turned`, and the source has not answered for as long as `patience` since.
fn is_turn_due(
    count: usize,
    turned: Option<u64>,
    answered: Option<u64>,
    now: u64,
    patience: u64,
) -> bool
    ensures value { result ≡ is_turn_due count turned answered now patience }
{
    2 <= count && has_passed(turned, now, patience) && has_passed(answered, now, patience)
}

/// The place of the address that is asked after the one at this place, of so many: the next one, and the first after the last.
fn next_place(count: usize, place: usize) -> usize
    ensures value { result ≡ next_place count place }
    ensures in_range { 0 < count → result < count }
{
    match place.checked_add(1) {
        Some(next) if next < count => next,
        _ => 0,
    }
}

/// For how long a source is asked at an address that does not answer: four rounds, each a pause and a wait.
pub(crate) fn patience_of(pauses: Pauses) -> u64
    ensures value { result ≡ patience_of pauses }
{
    let round = pauses.poll.saturating_add(pauses.wait);
    round.saturating_mul(SILENCES)
}

/// Whether one of the masters has a name.
pub fn has_names(masters: &[MasterSettings]) -> bool
    ensures value { result ≡ has_names masters.now }
{
    for master in masters {
        if master.address().host().is_some() {
            return true;
        }
    }
    false
}

/// A source with a name.
#[derive(Drop)]
pub(crate) struct NamedSource {
    source: usize,
    host: String,
    port: u16,
    /// What the clock showed when it was looked up last.
    tried: Option<u64>,
    /// The addresses that the last lookup found that found one, those that the socket reaches, each once.
    addresses: Vec<SocketAddr>,
    /// The place of the address that is asked.
    place: usize,
    /// What the clock showed when that was taken.
    turned: Option<u64>,
}

/// The sources with a name, each with its number: its place among the masters. None if it is out of memory.
fn named_in(alloc: Global, masters: &[MasterSettings]) -> Option<Vec<NamedSource>>
    ensures value { IfSome result (λ named. map named_as named.items ≡ named_from 0 masters.now) }
{
    let mut named = Vec::new(alloc);
    for place in 0..masters.len() {
        if let Some((host, port)) = masters[place].address().host() {
            let addresses = Vec::with_capacity(alloc, MAX_FOUND).ok()?;
            named
                .push(NamedSource {
                    source: place,
                    host: String::from_str(alloc, host).ok()?,
                    port,
                    tried: None,
                    addresses,
                    place: 0,
                    turned: None,
                })
                .ok()?;
        }
    }
    Some(named)
}

/// What the thread that looks up names shares with the daemon's. Its lock is only held to copy.
#[derive(Drop)]
pub(crate) struct NameTable {
    lookups: Mutex<[Lookups; MAX_SOURCES]>,
    /// How many lookups were made.
    changes: AtomicU64,
    /// For each source, what the clock showed when its last answer came; 0 if none came.
    answered: [AtomicU64; MAX_SOURCES],
    ended: AtomicBool,
    /// Makes the pauses of the thread.
    pause: Parker,
}

impl NameTable {
    /// Nothing was looked up, and nothing was answered.
    fn new() -> NameTable {
        NameTable {
            lookups: Mutex::new([NO_LOOKUPS; MAX_SOURCES]),
            changes: AtomicU64::new(0),
            answered: array::from_fn(|_| AtomicU64::new(0)),
            ended: AtomicBool::new(false),
            pause: Parker::new(),
        }
    }

    /// How many lookups were made so far.
    pub(crate) fn changes(&self) -> u64 {
        self.changes.load(Ordering::SeqCst)
    }

    /// What was found so far, by the number of the source.
    pub(crate) fn found<R: Wait>(&self, rt: &R) -> [Lookups; MAX_SOURCES] {
        *self.lookups.lock(rt)
    }

    /// Tells when the last answers came.
    pub(crate) fn hear(&self, answers: &[Option<Answer>; MAX_SOURCES]) {
        for source in 0..MAX_SOURCES {
            if let Some(answer) = &answers[source] {
                self.answered[source].store(answer.received.max(1), Ordering::SeqCst);
            }
        }
    }

    /// When the last answer of a source came, if one did.
    fn answered(&self, source: usize) -> Option<u64> {
        match self.answered.get(source)?.load(Ordering::SeqCst) {
            0 => None,
            clock => Some(clock),
        }
    }

    /// Notes that a lookup of the name of this source found this address, or none.
    fn note<R: Wait>(&self, rt: &R, source: usize, found: Option<SocketAddr>) {
        if let Some(lookups) = self.lookups.lock(rt).get_mut(source) {
            *lookups = lookups.after(found);
        }
        self.changes.fetch_add(1, Ordering::SeqCst);
    }

    /// Notes that this address of a source is asked from now on.
    fn turn<R: Wait>(&self, rt: &R, source: usize, next: Option<SocketAddr>) {
        if let Some(lookups) = self.lookups.lock(rt).get_mut(source) {
            *lookups = lookups.asking(next);
        }
        self.changes.fetch_add(1, Ordering::SeqCst);
    }

    /// Has the thread end once its lookup is over. It is not waited for.
    pub(crate) fn end(&self) {
        self.ended.store(true, Ordering::SeqCst);
        self.pause.unpark();
    }
}

/// What the thread that looks up names owns.
#[derive(Drop)]
pub(crate) struct Names {
    named: Vec<NamedSource>,
    table: Arc<NameTable, Global>,
    reach: Reach,
    /// For how long a source is asked at an address that does not answer.
    patience: u64,
}

impl Names {
    /// The names of these masters, of which none is looked up yet, for a socket with this reach. A source is asked for as long
    /// as `patience` at an address that does not answer. None if it is out of memory.
    pub(crate) fn new(
        alloc: Global,
        masters: &[MasterSettings],
        reach: Reach,
        patience: u64,
    ) -> Option<(Names, Arc<NameTable, Global>)> {
        let named = named_in(alloc, masters)?;
        let table = Arc::new(alloc, NameTable::new()).ok()?;
        let shared = Arc::try_clone(&table).ok()?;
        let names = Names {
            named,
            table,
            reach,
            patience,
        };
        Some((names, shared))
    }
}

/// The addresses of names. The runtime handle has them. A thread can be given it, since no type of connections belongs to
/// it.
pub trait HostNames {
    /// Puts the first addresses of a name at the start of `found`, each with this port. Answers how many.
    fn look_up(&self, host: &str, port: u16, found: &mut [SocketAddr; MAX_FOUND]) -> usize;
}

impl<R: Net> HostNames for R {
    fn look_up(&self, host: &str, port: u16, found: &mut [SocketAddr; MAX_FOUND]) -> usize {
        let mut count = 0;
        if let Ok(addresses) = (host, port).to_socket_addrs(self) {
            for address in addresses {
                if count < MAX_FOUND {
                    found[count] = address;
                    count += 1;
                }
            }
        }
        count
    }
}

/// The place of an address among these; 0 if it is not there.
fn place_of(addresses: &[SocketAddr], known: Option<SocketAddr>) -> usize {
    for place in 0..addresses.len() {
        if Some(addresses[place]) == known {
            return place;
        }
    }
    0
}

impl NamedSource {
    /// The address that is asked, if one was found.
    fn address(&self) -> Option<SocketAddr> {
        self.addresses.get(self.place).copied()
    }

    /// Takes the addresses that the socket reaches, each once. The one that was asked goes on if it is among them.
    fn take(&mut self, reach: Reach, found: &[SocketAddr], now: u64) {
        let known = self.address();
        self.addresses.clear();
        for address in found {
            if reaches(reach, *address) && !self.addresses.contains(address) {
                let _ = self.addresses.push(*address);
            }
        }
        self.place = place_of(self.addresses.as_slice(), known);
        if self.address() != known {
            self.turned = Some(now);
        }
    }

    /// Looks up the name. Answers the address that is to be asked, or None if the name has none that the socket reaches: then
    /// what was found before stays.
    fn look_up<R: HostNames>(&mut self, rt: &R, reach: Reach, now: u64) -> Option<SocketAddr> {
        let mut found = [SocketAddr::from((Ipv4Addr::UNSPECIFIED, 0)); MAX_FOUND];
        let count = rt.look_up(self.host.as_str(), self.port, &mut found);
        let found = found.get(..count)?;
        first_reached(reach, found)?;
        self.take(reach, found, now);
        self.address()
    }

    /// Takes the next address of the name, and answers it.
    fn turn(&mut self, now: u64) -> Option<SocketAddr> {
        self.place = next_place(self.addresses.len(), self.place);
        self.turned = Some(now);
        self.address()
    }
}

/// Looks up the names that are due, and takes the next address where one was silent for long.
fn look_up_due<R: Wait + SystemClock + HostNames>(rt: &R, names: &mut Names) {
    let (reach, patience) = (names.reach, names.patience);
    for named in &mut names.named {
        let Some(now) = reading_of(rt) else {
            return;
        };
        let answered = names.table.answered(named.source);
        if is_lookup_due(named.tried, answered, now) {
            let found = named.look_up(rt, reach, now);
            names.table.note(rt, named.source, found);
            named.tried = Some(reading_of(rt).unwrap_or(now));
        } else if is_turn_due(named.addresses.len(), named.turned, answered, now, patience) {
            let next = named.turn(now);
            names.table.turn(rt, named.source, next);
        }
    }
}

/// Looks up names until the machine ends.
fn look_up_all<R: Wait + SystemClock + HostNames>(rt: &R, names: Names) {
    let mut names = names;
    for _ in rt.forever() {
        look_up_due(rt, &mut names);
        if names.table.ended.load(Ordering::SeqCst) {
            return;
        }
        names
            .table
            .pause
            .park_timeout(rt, Duration::from_nanos(STEP));
    }
    unreachable!()
}

/// Starts the thread that looks up names. It is never joined, since nothing ends a lookup. Answers whether it was started.
pub(crate) fn start_names<R: Threads + Wait + SystemClock + HostNames + Copy + Send + 'static>(
    rt: &R,
    names: Names,
) -> bool {
    let rt = *rt;
    thread::spawn(&rt, move || look_up_all(&rt, names)).is_ok()
}
