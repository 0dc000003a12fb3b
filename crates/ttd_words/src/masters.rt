//! What the time of a master stands on, by its options.

ghost use Rattle.std.specs.Prelude.{◌≡◌, ◌⊎◌, ◌≤◌, codes, length, Ok, Err, MatchResult};
ghost use Rattle.clap.specs.Walk.{all_of, first_of, texts};
ghost use Rattle.clap.specs.Words.{found_of, rows_of};
ghost use Rattle.tt_settings.specs.Duration.{duration_of as duration_in};
ghost use Rattle.tt_settings.specs.Socket.{address_of as address_in};
ghost use Rattle.ttd_words.specs.CommandLine.{max_faulty};
ghost use Rattle.ttd_words.specs.Reading.{number_at, IsTimeMeant, age_at, clock_of, device_of, drift_at, duration_at, duration_if, faulty_at, faulty_of, has_twice, is_among, key_at, no_ntp_option, no_ntp_options, no_real_option, no_stated_option, ntp_of, real_of, refuse_if, fixed_if, http_if, servers_fit, servers_in, stated_of, tai_offset_of, time_of};

use crate::faults::{Given, TimeOption, WordsFault};
use crate::requests::{MasterTime, NtpTime};
use crate::values::{
    acts_at, flag_at, id_at, number_if, number_or, number_to, offset_at, path_at, texts_at,
};
use clap::ArgMatches;
use std::alloc::Global;
use std::net::SocketAddr;
use tt_daemon::DEFAULT_DRIFT;
use tt_settings::{address_of, duration_of};
use tt_span::{Drift, MAX_DRIFT, MAX_SOURCES, MAX_TIME};

/// The most of at most [`MAX_SOURCES`] servers that may be wrong.
pub(crate) const MOST_FAULTY: u64 = 7;

/// The most seconds that TAI may be ahead of UTC.
pub(crate) const MOST_TAI_OFFSET: u64 = 100;

/// The shortest time that an option takes, in nanoseconds: a millisecond.
const LEAST_DURATION: u64 = 1_000_000;

/// The longest time that an option takes, in nanoseconds: a day.
const MOST_DURATION: u64 = 86_400_000_000_000;

/// How old a reply may become where no option says it, in nanoseconds: 1024 seconds.
const DEFAULT_AGE: u64 = 1_024_000_000_000;

/// Refuses what was given as this.
fn refuse_if(is_given: bool, given: Given) -> Result<(), WordsFault>
    ensures { result ≡ refuse_if is_given given }
{
    if is_given {
        return Err(WordsFault::BadValue(given));
    }
    Ok(())
}

/// Refuses an option of NTP servers that was given.
fn no_ntp_option(matches: &ArgMatches<'_>, option: TimeOption) -> Result<(), WordsFault>
    ensures { result ≡ no_ntp_option option (rows_of (found_of matches.now)) }
{
    refuse_if(
        path_at(matches, option.id()).is_some(),
        Given::WithoutNtp(option),
    )
}

/// Refuses an option of a stated uncertainty that was given.
fn no_stated_option(matches: &ArgMatches<'_>, option: TimeOption) -> Result<(), WordsFault>
    ensures { result ≡ no_stated_option option (rows_of (found_of matches.now)) }
{
    refuse_if(
        path_at(matches, option.id()).is_some(),
        Given::WithNtp(option),
    )
}

/// Refuses each option of NTP servers.
#[tactic(auto, unfolding(crate::specs::Reading::no_ntp_options))]
fn no_ntp_options(matches: &ArgMatches<'_>) -> Result<(), WordsFault>
    ensures { result ≡ no_ntp_options (rows_of (found_of matches.now)) }
{
    no_ntp_option(matches, TimeOption::Faulty)?;
    no_ntp_option(matches, TimeOption::Margin)?;
    no_ntp_option(matches, TimeOption::Every)?;
    no_ntp_option(matches, TimeOption::MaxAge)?;
    no_ntp_option(matches, TimeOption::NtpKey)?;
    no_ntp_option(matches, TimeOption::NtpKeys)?;
    refuse_if(
        flag_at(matches, "local"),
        Given::WithoutNtp(TimeOption::Local),
    )
}

/// This computer's real-time clock as what a master stands on.
#[tactic(auto, unfolding(crate::specs::Reading::real_of))]
fn real_asked<'a>(
    alloc: Global,
    matches: &ArgMatches<'a>,
    uncertainty: u64,
    drift: Drift,
) -> Result<MasterTime<'a>, WordsFault>
    ensures { IsTimeMeant (real_of uncertainty drift (rows_of (found_of matches.now))) result }
{
    refuse_if(
        path_at(matches, "tai-offset").is_some(),
        Given::TaiOffsetAlone,
    )?;
    let offset = offset_at(matches, "offset")?;
    let acts = acts_at(alloc, matches, "act")?;
    Ok(MasterTime::Stated {
        uncertainty,
        drift,
        offset,
        acts,
    })
}

/// Refuses an option of the real-time clock that was given.
fn no_real_option(matches: &ArgMatches<'_>, option: TimeOption) -> Result<(), WordsFault>
    ensures { result ≡ no_real_option option (rows_of (found_of matches.now)) }
{
    refuse_if(
        path_at(matches, option.id()).is_some(),
        Given::WithPhc(option),
    )
}

/// How far TAI is ahead of UTC, in seconds, which has to be given.
fn tai_offset_at(matches: &ArgMatches<'_>) -> Result<u64, WordsFault>
    ensures { result ≡ tai_offset_of (number_at (codes "tai-offset") (rows_of (found_of matches.now))) }
{
    match number_if(matches, "tai-offset", MOST_TAI_OFFSET)? {
        Some(tai_offset) => Ok(tai_offset),
        None => Err(WordsFault::BadValue(Given::PhcAlone)),
    }
}

/// The hardware clock at this path as what a master stands on.
#[tactic(auto, unfolding(crate::specs::Reading::device_of))]
fn device_asked<'a>(
    matches: &ArgMatches<'a>,
    path: &'a str,
    uncertainty: u64,
    drift: Drift,
) -> Result<MasterTime<'a>, WordsFault>
    ensures { IsTimeMeant (device_of path.entry.now uncertainty drift (rows_of (found_of matches.now))) result }
{
    no_real_option(matches, TimeOption::Offset)?;
    no_real_option(matches, TimeOption::Act)?;
    let tai_offset = tai_offset_at(matches)?;
    Ok(MasterTime::Device {
        path,
        tai_offset,
        uncertainty,
        drift,
    })
}

/// A clock of this computer as what a master stands on: the device that was given, or else the real-time clock.
#[tactic(auto, unfolding(crate::specs::Reading::stated_of))]
fn stated_asked<'a>(alloc: Global, matches: &ArgMatches<'a>) -> Result<MasterTime<'a>, WordsFault>
    ensures { IsTimeMeant (stated_of (rows_of (found_of matches.now))) result }
{
    no_ntp_options(matches)?;
    let uncertainty = number_to(matches, "uncertainty", MAX_TIME)?;
    let drift = drift_at(matches)?;
    match path_at(matches, "phc") {
        Some(path) => device_asked(matches, path, uncertainty, drift),
        None => real_asked(alloc, matches, uncertainty, drift),
    }
}

/// The address in this text, if it has a port above 0. Any other text is refused as this.
fn fixed_in(text: &str, given: Given) -> Result<SocketAddr, WordsFault>
    ensures { result ≡ fixed_if given (address_in text.now) }
{
    match address_of(text) {
        Some(address) if address.port() > 0 => Ok(address),
        _ => Err(WordsFault::BadValue(given)),
    }
}

/// The address of an NTP server in this text.
pub(crate) fn server_in(text: &str) -> Result<SocketAddr, WordsFault>
    ensures { result ≡ fixed_if Given.Ntp (address_in text.now) }
{
    fixed_in(text, Given::Ntp)
}

/// The address of pages that was given. None if it was left out.
pub(crate) fn http_at(matches: &ArgMatches<'_>) -> Result<Option<SocketAddr>, WordsFault>
    ensures { result ≡ http_if (first_of (codes "http") (rows_of (found_of matches.now))) }
{
    match path_at(matches, "http") {
        Some(text) => Ok(Some(fixed_in(text, Given::Http)?)),
        None => Ok(None),
    }
}

/// The addresses in these texts, in their order.
fn servers_in(alloc: Global, given: &[&str]) -> Result<Vec<SocketAddr>, WordsFault>
    ensures { let defined = servers_in (texts given.now) in
        MatchResult result (λ servers. defined ≡ Ok servers.items) (λ fault. (defined ≡ Err fault) ⊎ (fault ≡ WordsFault.Memory)) }
{
    let mut servers = Vec::new(alloc);
    for text in given {
        servers.push(server_in(text)?)?;
    }
    Ok(servers)
}

/// Whether a text is among these.
pub(crate) fn is_among(text: &str, others: &[&str]) -> bool
    ensures { result ≡ is_among text.now (texts others.now) }
{
    for other in others {
        if *other == text {
            return true;
        }
    }
    false
}

/// Whether a text is among these twice.
fn has_twice(given: &[&str]) -> bool
    ensures { result ≡ has_twice (texts given.now) }
{
    for place in 0..given.len() {
        if is_among(given[place], &given[place + 1..]) {
            return true;
        }
    }
    false
}

/// Refuses more servers than a master takes, and one that is there twice.
fn check_servers(given: &[&str]) -> Result<(), WordsFault>
    ensures { result ≡ servers_fit (texts given.now) }
{
    refuse_if(given.len() > MAX_SOURCES, Given::ManyServers)?;
    refuse_if(has_twice(given), Given::ServerTwice)
}

/// This number of so many servers that may be wrong.
fn faulty_of(servers: u64, faulty: u64) -> Result<u64, WordsFault>
    requires { faulty ≤ max_faulty }
    ensures { result ≡ faulty_of servers faulty }
{
    if 2 * faulty < servers {
        Ok(faulty)
    } else {
        Err(WordsFault::BadValue(Given::Faulty))
    }
}

/// The most of so many servers that may be wrong: 0 if it was left out.
fn faulty_at(matches: &ArgMatches<'_>, servers: u64) -> Result<u64, WordsFault>
    ensures { result ≡ faulty_at servers (rows_of (found_of matches.now)) }
{
    let faulty = number_or(matches, "faulty", MOST_FAULTY, 0)?;
    faulty_of(servers, faulty)
}

/// The drift that was given, or its default.
fn drift_at(matches: &ArgMatches<'_>) -> Result<Drift, WordsFault>
    ensures { result ≡ drift_at (rows_of (found_of matches.now)) }
{
    let drift = number_or(
        matches,
        "drift",
        u64::from(MAX_DRIFT),
        u64::from(DEFAULT_DRIFT),
    )?;
    match Drift::new(drift as u32) {
        Some(drift) => Ok(drift),
        None => Err(WordsFault::BadWords),
    }
}

/// The time in this text, of which a wrong one is refused as this.
fn duration_in(text: &str, given: Given) -> Result<u64, WordsFault>
    ensures { result ≡ duration_if given (duration_in text.now) }
{
    match duration_of(text) {
        Some(time) if LEAST_DURATION <= time && time <= MOST_DURATION => Ok(time),
        _ => Err(WordsFault::BadValue(given)),
    }
}

/// The time that was given for an option, of which a wrong one is refused as this. None if it was left out.
fn duration_at(matches: &ArgMatches<'_>, id: &str, given: Given) -> Result<Option<u64>, WordsFault>
    ensures { result ≡ duration_at given (first_of id.now (rows_of (found_of matches.now))) }
{
    match path_at(matches, id) {
        Some(text) => Ok(Some(duration_in(text, given)?)),
        None => Ok(None),
    }
}

/// The greatest age of a reply that was given, or its default.
fn age_at(matches: &ArgMatches<'_>) -> Result<u64, WordsFault>
    ensures { result ≡ age_at (rows_of (found_of matches.now)) }
{
    match duration_at(matches, "max-age", Given::MaxAge)? {
        Some(age) => Ok(age),
        None => Ok(DEFAULT_AGE),
    }
}

/// The number of the key that signs packets. It is given exactly where its file is.
fn key_at(matches: &ArgMatches<'_>) -> Result<Option<u32>, WordsFault>
    ensures { result ≡ key_at (rows_of (found_of matches.now)) }
{
    let key = id_at(matches, "ntp-key")?;
    match (key, path_at(matches, "ntp-keys")) {
        (Some(_), None) => Err(WordsFault::BadValue(Given::NtpKeyAlone)),
        (None, Some(_)) => Err(WordsFault::BadValue(Given::NtpKeysAlone)),
        _ => Ok(key),
    }
}

/// NTP servers with these addresses as what a master stands on.
#[tactic(auto, unfolding(crate::specs::Reading::ntp_of))]
fn ntp_asked<'a>(
    alloc: Global,
    matches: &ArgMatches<'a>,
    given: &[&str],
) -> Result<MasterTime<'a>, WordsFault>
    ensures { IsTimeMeant (ntp_of (texts given.now) (rows_of (found_of matches.now))) result }
{
    no_stated_option(matches, TimeOption::Phc)?;
    no_stated_option(matches, TimeOption::TaiOffset)?;
    no_stated_option(matches, TimeOption::Offset)?;
    no_stated_option(matches, TimeOption::Act)?;
    check_servers(given)?;
    let faulty = faulty_at(matches, given.len() as u64)?;
    let margin = number_or(matches, "margin", MAX_TIME, 0)?;
    let every = duration_at(matches, "every", Given::Every)?;
    let drift = drift_at(matches)?;
    let max_age = age_at(matches)?;
    let key = key_at(matches)?;
    let servers = servers_in(alloc, given)?;
    Ok(MasterTime::Ntp(NtpTime {
        servers,
        faulty,
        margin,
        every,
        drift,
        max_age,
        key,
        keys: path_at(matches, "ntp-keys"),
        local: flag_at(matches, "local"),
    }))
}

/// What a master stands on: a clock of this computer, or NTP servers.
pub(crate) fn time_asked<'a>(
    alloc: Global,
    matches: &ArgMatches<'a>,
) -> Result<MasterTime<'a>, WordsFault>
    ensures { IsTimeMeant (time_of (rows_of (found_of matches.now))) result }
{
    let stated = path_at(matches, "uncertainty").is_some();
    match texts_at(matches, "ntp") {
        None if stated => stated_asked(alloc, matches),
        None => Err(WordsFault::BadValue(Given::NoTime)),
        Some(_) if stated => Err(WordsFault::BadValue(Given::BothTimes)),
        Some(given) => ntp_asked(alloc, matches, given),
    }
}
