//! The values that were given for options and positional arguments.

ghost use Rattle.std.specs.Prelude.{◌≡◌, ◌⊎◌, codes, map, Ok, Err, MatchResult, option_map, string_bytes};
ghost use Rattle.clap.specs.Walk.{all_of, first_of, texts};
ghost use Rattle.clap.specs.Words.{found_of, rows_of};
ghost use Rattle.tt_span.specs.Time.{max_time};
ghost use Rattle.tt_settings.specs.Numeral.{number_of as number_in};
ghost use Rattle.tt_settings.specs.Socket.{address_of as address_in};
ghost use Rattle.ttd_words.specs.Reading.{act_of, acts_at, acts_in, flag_at, id_at, line_at, listen_at, listen_if, log_at, name_at, number_at, number_to, number_if, number_or, offset_by, offset_if, offset_in, place_at, place_in, place_of, columns_if, side_at, side_in, text_at, time_behind, top_place_of};
ghost use Rattle.tt_script.specs.Acts.{act_in as act_in_script};

use crate::faults::{Given, WordsFault};
use crate::requests::{Offset, Peer, Side, TopPlace};
use clap::ArgMatches;
use std::alloc::Global;
use std::net::SocketAddr;
use tt_keys::is_name;
use tt_master::Act;
use tt_script::act_in;
use tt_settings::{address_of, is_loopback, log_format_of, number_of, port_of};
use tt_span::MAX_TIME;
use tt_status::LogFormat;

/// The least number of columns of a table.
pub(crate) const LEAST_COLUMNS: u64 = 40;

/// The greatest number of columns of a table.
pub(crate) const MOST_COLUMNS: u64 = 300;

/// The greatest number of a key.
pub(crate) const MOST_ID: u64 = 4_294_967_295;

/// The number that was given for an option, or its default.
pub(crate) fn number_given(matches: &ArgMatches<'_>, id: &str) -> Option<u64>
    ensures { number_at id.now (rows_of (found_of matches.now)) ≡ result }
{
    matches.get_one::<u64>(id)
}

/// The number that was given for an option, or its default. It has to be at most `most`.
pub(crate) fn number_to(matches: &ArgMatches<'_>, id: &str, most: u64) -> Result<u64, WordsFault>
    ensures { result ≡ number_to id.now most (rows_of (found_of matches.now)) }
{
    match number_given(matches, id) {
        Some(number) if number <= most => Ok(number),
        _ => Err(WordsFault::BadWords),
    }
}

/// The number that was given for an option, or None if it was left out. It has to be at most `most`.
pub(crate) fn number_if(
    matches: &ArgMatches<'_>,
    id: &str,
    most: u64,
) -> Result<Option<u64>, WordsFault>
    ensures { result ≡ number_if most (number_at id.now (rows_of (found_of matches.now))) }
{
    match number_given(matches, id) {
        Some(number) if number <= most => Ok(Some(number)),
        Some(_) => Err(WordsFault::BadWords),
        None => Ok(None),
    }
}

/// The number that was given for an option, or `default` if it was left out. It has to be at most `most`.
pub(crate) fn number_or(
    matches: &ArgMatches<'_>,
    id: &str,
    most: u64,
    default: u64,
) -> Result<u64, WordsFault>
    ensures { result ≡ number_or most default (number_at id.now (rows_of (found_of matches.now))) }
{
    match number_given(matches, id) {
        Some(number) if number <= most => Ok(number),
        Some(_) => Err(WordsFault::BadWords),
        None => Ok(default),
    }
}

/// The text that was given for an option or a positional argument, or its default.
pub(crate) fn text_at<'a>(matches: &ArgMatches<'a>, id: &str) -> Result<&'a str, WordsFault>
    ensures { let defined = text_at id.now (rows_of (found_of matches.now)) in
        MatchResult result (λ text. defined ≡ Ok text.now) (λ fault. defined ≡ Err fault) }
{
    match matches.get_str(id) {
        Some(text) => Ok(text),
        None => Err(WordsFault::BadWords),
    }
}

/// The path that was given for an option. None if it was left out.
pub(crate) fn path_at<'a>(matches: &ArgMatches<'a>, id: &str) -> Option<&'a str>
    ensures { option_map (λ path. path.now) result ≡ first_of id.now (rows_of (found_of matches.now)) }
{
    matches.get_str(id)
}

/// The texts that were given for an option, in their order. None if it was left out.
pub(crate) fn texts_at<'m, 'a>(matches: &'m ArgMatches<'a>, id: &str) -> Option<&'m [&'a str]>
    ensures { option_map (λ given. texts given.now) result ≡ all_of id.now (rows_of (found_of matches.now)) }
{
    matches.get_strs(id)
}

/// The address in this text, if it may be listened at: with keys one of any host, else one of this host.
fn listen_in(sealed: bool, text: &str) -> Result<SocketAddr, WordsFault>
    ensures { result ≡ listen_if sealed (address_in text.now) }
{
    match address_of(text) {
        Some(address) => {
            if sealed || is_loopback(address) {
                Ok(address)
            } else {
                Err(WordsFault::BadValue(Given::NotLocal))
            }
        }
        None => Err(WordsFault::BadValue(Given::Listen)),
    }
}

/// The address to listen at that was given, with keys or without.
pub(crate) fn listen_at(
    matches: &ArgMatches<'_>,
    id: &str,
    sealed: bool,
) -> Result<SocketAddr, WordsFault>
    ensures { result ≡ listen_at id.now sealed (rows_of (found_of matches.now)) }
{
    listen_in(sealed, text_at(matches, id)?)
}

/// The number of a key that was given for an option. None if it was left out.
pub(crate) fn id_at(matches: &ArgMatches<'_>, id: &str) -> Result<Option<u32>, WordsFault>
    ensures { result ≡ id_at id.now (rows_of (found_of matches.now)) }
{
    match number_given(matches, id) {
        Some(number) if number <= MOST_ID => Ok(Some(number as u32)),
        Some(_) => Err(WordsFault::BadWords),
        None => Ok(None),
    }
}

/// The name of a key that was given for an option. None if it was left out.
pub(crate) fn name_at<'a>(matches: &ArgMatches<'a>, id: &str) -> Result<Option<&'a str>, WordsFault>
    ensures { let defined = name_at id.now (rows_of (found_of matches.now)) in
        MatchResult result (λ name. defined ≡ Ok (option_map (λ text. text.now) name)) (λ fault. defined ≡ Err fault) }
{
    match path_at(matches, id) {
        Some(name) => {
            if is_name(name.as_bytes()) {
                Ok(Some(name))
            } else {
                Err(WordsFault::BadValue(Given::Name))
            }
        }
        None => Ok(None),
    }
}

/// The machine that a text names: by a path if it has a `/`, else by its address of this host, else by a path if it has
/// no `:` and is not empty.
fn peer_in(text: &str) -> Result<Peer<'_>, WordsFault>
    ensures { let defined = place_in text.now in
        MatchResult result (λ peer. defined ≡ Ok (place_of peer)) (λ fault. defined ≡ Err fault) }
{
    if text.as_bytes().contains(&b'/') {
        return Ok(Peer::Path(text));
    }
    if let Some(port) = port_of(text) {
        return Ok(Peer::Port(port));
    }
    if text.is_empty() || text.as_bytes().contains(&b':') {
        return Err(WordsFault::BadValue(Given::Address));
    }
    Ok(Peer::Path(text))
}

/// The machine that was given.
pub(crate) fn peer_at<'a>(matches: &ArgMatches<'a>, id: &str) -> Result<Peer<'a>, WordsFault>
    ensures { let defined = place_at id.now (rows_of (found_of matches.now)) in
        MatchResult result (λ peer. defined ≡ Ok (place_of peer)) (λ fault. defined ≡ Err fault) }
{
    peer_in(text_at(matches, id)?)
}

/// The place of a status that was given.
pub(crate) fn top_place_at<'a>(
    matches: &ArgMatches<'a>,
    id: &str,
) -> Result<TopPlace<'a>, WordsFault>
    ensures { let defined = place_at id.now (rows_of (found_of matches.now)) in
        MatchResult result (λ place. defined ≡ Ok (top_place_of place)) (λ fault. defined ≡ Err fault) }
{
    match peer_at(matches, id) {
        Ok(Peer::Port(port)) => Ok(TopPlace::Port(port)),
        Ok(Peer::Path(path)) => Ok(TopPlace::File(path)),
        Err(fault) => Err(fault),
    }
}

/// The number of columns that was given for an option. None if it was left out.
pub(crate) fn columns_at(matches: &ArgMatches<'_>, id: &str) -> Result<Option<u64>, WordsFault>
    ensures { result ≡ columns_if (number_at id.now (rows_of (found_of matches.now))) }
{
    match number_given(matches, id) {
        Some(number) if LEAST_COLUMNS <= number && number <= MOST_COLUMNS => Ok(Some(number)),
        Some(_) => Err(WordsFault::BadWords),
        None => Ok(None),
    }
}

/// The side with this name.
fn side_in(text: &str) -> Result<Side, WordsFault>
    ensures { result ≡ side_in text.now }
{
    match text {
        "low" => Ok(Side::Low),
        "high" => Ok(Side::High),
        _ => Err(WordsFault::BadValue(Given::Side)),
    }
}

/// The side that was given for an option.
pub(crate) fn side_at(matches: &ArgMatches<'_>, id: &str) -> Result<Side, WordsFault>
    ensures { result ≡ side_at id.now (rows_of (found_of matches.now)) }
{
    side_in(text_at(matches, id)?)
}

/// Whether a flag was given.
pub(crate) fn flag_at(matches: &ArgMatches<'_>, id: &str) -> bool
    ensures { result ≡ flag_at id.now (rows_of (found_of matches.now)) }
{
    match matches.get_str(id) {
        Some(text) => text == "true",
        None => false,
    }
}

/// The time behind this word in the text.
fn time_behind(word: &str, text: &str) -> Option<u64>
    ensures { result ≡ time_behind word.now text.now }
{
    match text.strip_prefix(word) {
        Some(digits) => number_of(MAX_TIME, digits),
        None => None,
    }
}

/// The offset in this text.
fn offset_in(text: &str) -> Result<Offset, WordsFault>
    ensures { result ≡ offset_in text.now }
{
    if let Some(earlier) = time_behind("-", text) {
        return Ok(Offset::Earlier(earlier));
    }
    if let Some(later) = time_behind("+", text) {
        return Ok(Offset::Later(later));
    }
    match number_of(MAX_TIME, text) {
        Some(later) => Ok(Offset::Later(later)),
        None => Err(WordsFault::BadValue(Given::Offset)),
    }
}

/// The offset that was given for an option, or none at all if it was left out.
pub(crate) fn offset_at(matches: &ArgMatches<'_>, id: &str) -> Result<Offset, WordsFault>
    ensures { result ≡ offset_if (first_of id.now (rows_of (found_of matches.now))) }
{
    match path_at(matches, id) {
        Some(text) => offset_in(text),
        None => Ok(Offset::Later(0)),
    }
}

/// The form of the log that was given for an option, or its default.
pub(crate) fn log_at(matches: &ArgMatches<'_>, id: &str) -> Result<LogFormat, WordsFault>
    ensures { result ≡ log_at id.now (rows_of (found_of matches.now)) }
{
    match log_format_of(text_at(matches, id)?) {
        Some(format) => Ok(format),
        None => Err(WordsFault::BadValue(Given::Log)),
    }
}

/// The act in this text.
fn act_of(text: &str) -> Result<Act, WordsFault>
    ensures { result ≡ act_of (act_in_script text.now) }
{
    match act_in(text) {
        Some(act) => Ok(act),
        None => Err(WordsFault::BadValue(Given::Act)),
    }
}

/// The acts in these texts, in their order.
fn acts_in(alloc: Global, given: &[&str]) -> Result<Vec<Act>, WordsFault>
    ensures { let defined = acts_in (texts given.now) in
        MatchResult result (λ acts. defined ≡ Ok acts.items) (λ fault. (defined ≡ Err fault) ⊎ (fault ≡ WordsFault.Memory)) }
{
    let mut acts = Vec::new(alloc);
    for text in given {
        acts.push(act_of(text)?)?;
    }
    Ok(acts)
}

/// The acts that were given, or the honest act if none was given.
pub(crate) fn acts_at(
    alloc: Global,
    matches: &ArgMatches<'_>,
    id: &str,
) -> Result<Vec<Act>, WordsFault>
    ensures { let defined = acts_at (all_of id.now (rows_of (found_of matches.now))) in
        MatchResult result (λ acts. defined ≡ Ok acts.items) (λ fault. (defined ≡ Err fault) ⊎ (fault ≡ WordsFault.Memory)) }
{
    match matches.get_strs(id) {
        Some(given) => acts_in(alloc, given),
        None => {
            let mut acts = Vec::new(alloc);
            acts.push(Act::Honest)?;
            Ok(acts)
        }
    }
}

/// The words of a line, with one space between two words. None if there are no words.
pub(crate) fn line_at(
    alloc: Global,
    matches: &ArgMatches<'_>,
    id: &str,
) -> Result<Option<String>, WordsFault>
    ensures { MatchResult result (λ line. option_map string_bytes line ≡ line_at (all_of id.now (rows_of (found_of matches.now))))
        (λ fault. fault ≡ WordsFault.Memory) }
{
    match matches.get_strs(id) {
        Some(words) => Ok(Some(words.join(alloc, " ")?)),
        None => Ok(None),
    }
}
