//! What is refused of settings that can be read.

ghost use Rattle.std.specs.Prelude.{◌≡◌, ◌≤◌, ◌++◌, None, Ok, Err, IfOk, MatchResult, option_copied};
ghost use Rattle.std.specs.List.{list_any};
ghost use Rattle.tt_settings.specs.declared.keys.Key.TheVariants.{Evidence};
ghost use Rattle.tt_settings.specs.Fault.{IsRefusal};
ghost use Rattle.tt_settings.specs.Check.{evidence_fits, evidence_is_free, has_address, has_keys, has_same_address, has_same_key, is_free, is_given, masters_fit, meets_any, path_fits, paths_fit, shares_key, socket_fits, socket_path_fits, vmclock_fits, workers_fit};

use crate::faults::SettingsFault;
use crate::keys::Key;
use crate::masters::MasterSettings;
use crate::paths::{ended, meets_some, meets_state};
use crate::texts::{FilePath, Paths};
use std::alloc::{AllocError, Global};

/// The most bytes of the path of a Unix socket: those of an address of the system, less the one that ends it.
pub(crate) const MAX_SOCKET_PATH: usize = 107;

/// Whether two of these masters have one address.
fn has_same_address(masters: &[MasterSettings]) -> bool
    ensures { result ≡ has_same_address masters.now }
{
    for place in 0..masters.len() {
        if has_address(masters[place].address().as_str(), &masters[place + 1..]) {
            return true;
        }
    }
    false
}

/// Whether a master with this address is among these.
pub(crate) fn has_address(address: &str, masters: &[MasterSettings]) -> bool
    ensures { result ≡ has_address address.now masters.now }
{
    for master in masters {
        if master.address().as_str() == address {
            return true;
        }
    }
    false
}

/// Whether two masters share the number of a key.
fn shares_key(one: &MasterSettings, other: &MasterSettings) -> bool
    ensures { result ≡ shares_key one.now other.now }
{
    for number in one.keys() {
        if other.keys().contains(number) {
            return true;
        }
    }
    false
}

/// Whether a master shares the number of a key with one of these.
pub(crate) fn shares_with_any(one: &MasterSettings, others: &[MasterSettings]) -> bool
    ensures { result ≡ list_any (λ other. shares_key one.now other) others.now }
{
    for other in others {
        if shares_key(one, other) {
            return true;
        }
    }
    false
}

/// Whether two of these masters share the number of a key.
fn has_same_key(masters: &[MasterSettings]) -> bool
    ensures { result ≡ has_same_key masters.now }
{
    for place in 0..masters.len() {
        if shares_with_any(&masters[place], &masters[place + 1..]) {
            return true;
        }
    }
    false
}

/// Whether some of these masters have a key.
fn has_keys(masters: &[MasterSettings]) -> bool
    ensures { result ≡ has_keys masters.now }
{
    for master in masters {
        if !master.keys().is_empty() {
            return true;
        }
    }
    false
}

/// Refuses masters of which one is there twice, or two have a key in common, and keys without a file.
pub(crate) fn check_masters(
    masters: &[MasterSettings],
    keys: Option<&FilePath>,
) -> Result<(), SettingsFault>
    ensures { result ≡ masters_fit masters.now (option_copied keys.entry) }
{
    if has_same_address(masters) {
        return Err(SettingsFault::SameMaster);
    }
    if has_same_key(masters) {
        return Err(SettingsFault::SameKey);
    }
    match keys {
        None if has_keys(masters) => Err(SettingsFault::MissingKey(Key::Keys)),
        _ => Ok(()),
    }
}

/// Refuses a Unix socket where there is one worker, who serves the clients of the address.
pub(crate) fn check_workers(workers: usize, socket: Option<&FilePath>) -> Result<(), SettingsFault>
    ensures { result ≡ workers_fit workers (option_copied socket.entry) }
{
    match socket {
        Some(_) if workers == 1 => Err(SettingsFault::TooFewWorkers),
        _ => Ok(()),
    }
}

/// Refuses a path without a name.
fn check_given(key: Key, path: &str) -> Result<(), SettingsFault>
    ensures { result ≡ is_given key path.now }
{
    if path.is_empty() {
        return Err(SettingsFault::WrongValue(key));
    }
    Ok(())
}

/// Whether a path has a file in common with the state, or with one of four others.
fn meets_any(
    alloc: Global,
    path: &str,
    state: &str,
    first: Option<&FilePath>,
    second: Option<&FilePath>,
    third: Option<&FilePath>,
    fourth: Option<&FilePath>,
) -> Result<bool, AllocError>
    ensures { IfOk result (λ met. met ≡ meets_any path.now state.now (option_copied first.entry) (option_copied second.entry) (option_copied third.entry) (option_copied fourth.entry)) }
{
    let with_state = meets_state(alloc, path, state)?;
    let with_first = meets_some(alloc, path, first)?;
    let with_second = meets_some(alloc, path, second)?;
    let with_third = meets_some(alloc, path, third)?;
    let with_fourth = meets_some(alloc, path, fourth)?;
    Ok(with_state || with_first || with_second || with_third || with_fourth)
}

/// Refuses a path that is empty, or has a file in common with the state, or with one of four others.
#[tactic(auto, unfolding(crate::specs::Check::is_free))]
fn check_free(
    alloc: Global,
    key: Key,
    state: &str,
    first: Option<&FilePath>,
    second: Option<&FilePath>,
    third: Option<&FilePath>,
    fourth: Option<&FilePath>,
    path: &str,
) -> Result<(), SettingsFault>
    ensures { let defined = is_free key state.now (option_copied first.entry) (option_copied second.entry) (option_copied third.entry)
        (option_copied fourth.entry) path.now in
        MatchResult result (λ done. defined ≡ Ok done) (IsRefusal defined) }
{
    check_given(key, path)?;
    if meets_any(alloc, path, state, first, second, third, fourth)? {
        return Err(SettingsFault::SamePath(key));
    }
    Ok(())
}

/// The same of a path that may be absent, with three others.
fn check_path(
    alloc: Global,
    key: Key,
    state: &str,
    first: Option<&FilePath>,
    second: Option<&FilePath>,
    third: Option<&FilePath>,
    path: Option<&FilePath>,
) -> Result<(), SettingsFault>
    ensures { let defined = path_fits key state.now (option_copied first.entry) (option_copied second.entry) (option_copied third.entry)
        (option_copied path.entry) in
        MatchResult result (λ done. defined ≡ Ok done) (IsRefusal defined) }
{
    match path {
        Some(path) => check_free(alloc, key, state, first, second, third, None, path.as_str()),
        None => Ok(()),
    }
}

/// The same of a file beside the evidence, whose path goes on with this end.
fn check_beside(
    alloc: Global,
    state: &str,
    socket: Option<&FilePath>,
    shared: Option<&FilePath>,
    status: Option<&FilePath>,
    keys: Option<&FilePath>,
    evidence: &str,
    end: &str,
) -> Result<(), SettingsFault>
    ensures { let defined = is_free Evidence state.now (option_copied socket.entry) (option_copied shared.entry) (option_copied status.entry)
        (option_copied keys.entry) (evidence.now ++ end.now) in
        MatchResult result (λ done. defined ≡ Ok done) (IsRefusal defined) }
{
    let path = ended(alloc, evidence, end)?;
    check_free(
        alloc,
        Key::Evidence,
        state,
        socket,
        shared,
        status,
        keys,
        path.as_str(),
    )
}

/// The same of the evidence at this path, and of the two files beside it.
#[tactic(auto, unfolding(crate::specs::Check::evidence_is_free))]
fn check_kept(
    alloc: Global,
    state: &str,
    socket: Option<&FilePath>,
    shared: Option<&FilePath>,
    status: Option<&FilePath>,
    keys: Option<&FilePath>,
    path: &str,
) -> Result<(), SettingsFault>
    ensures { let defined = evidence_is_free state.now (option_copied socket.entry) (option_copied shared.entry) (option_copied status.entry)
        (option_copied keys.entry) path.now in
        MatchResult result (λ done. defined ≡ Ok done) (IsRefusal defined) }
{
    check_free(
        alloc,
        Key::Evidence,
        state,
        socket,
        shared,
        status,
        keys,
        path,
    )?;
    check_beside(alloc, state, socket, shared, status, keys, path, ".break-1")?;
    check_beside(alloc, state, socket, shared, status, keys, path, ".break-2")
}

/// The same of evidence that may be absent.
fn check_evidence(
    alloc: Global,
    state: &str,
    socket: Option<&FilePath>,
    shared: Option<&FilePath>,
    status: Option<&FilePath>,
    keys: Option<&FilePath>,
    evidence: Option<&FilePath>,
) -> Result<(), SettingsFault>
    ensures { let defined = evidence_fits state.now (option_copied socket.entry) (option_copied shared.entry) (option_copied status.entry)
        (option_copied keys.entry) (option_copied evidence.entry) in
        MatchResult result (λ done. defined ≡ Ok done) (IsRefusal defined) }
{
    match evidence {
        Some(path) => check_kept(alloc, state, socket, shared, status, keys, path.as_str()),
        None => Ok(()),
    }
}

/// Refuses the path of a Unix socket that is longer than the system takes.
fn check_socket(socket: Option<&FilePath>) -> Result<(), SettingsFault>
    ensures { result ≡ socket_fits (option_copied socket.entry) }
{
    match socket {
        Some(path) if path.as_str().len() > MAX_SOCKET_PATH => {
            Err(SettingsFault::WrongValue(Key::Socket))
        }
        _ => Ok(()),
    }
}

/// Refuses the path of a Unix socket that is too long, has no name, or has a file in common with the state.
#[tactic(auto, unfolding(crate::specs::Check::socket_path_fits))]
fn check_socket_path(
    alloc: Global,
    state: &str,
    socket: Option<&FilePath>,
) -> Result<(), SettingsFault>
    ensures { let defined = socket_path_fits state.now (option_copied socket.entry) in
        MatchResult result (λ done. defined ≡ Ok done) (IsRefusal defined) }
{
    check_socket(socket)?;
    check_path(alloc, Key::Socket, state, None, None, None, socket)
}

/// Refuses the path of a device without a name.
fn check_vmclock(vmclock: Option<&FilePath>) -> Result<(), SettingsFault>
    ensures { result ≡ vmclock_fits (option_copied vmclock.entry) }
{
    match vmclock {
        Some(path) => check_given(Key::Vmclock, path.as_str()),
        None => Ok(()),
    }
}

/// Refuses a path without a name, one of a Unix socket that is too long, and one that has two purposes.
pub(crate) fn check_paths(alloc: Global, paths: &Paths) -> Result<(), SettingsFault>
    ensures { let defined = paths_fit paths.now in
        MatchResult result (λ done. defined ≡ Ok done) (IsRefusal defined) }
{
    let state = paths.state.as_str();
    let socket = paths.socket.as_ref();
    let shared = paths.shared.as_ref();
    let status = paths.status.as_ref();
    let keys = paths.keys.as_ref();
    check_given(Key::State, state)?;
    check_socket_path(alloc, state, socket)?;
    check_path(alloc, Key::Shared, state, socket, None, None, shared)?;
    check_path(alloc, Key::Status, state, socket, shared, None, status)?;
    check_path(alloc, Key::Keys, state, socket, shared, status, keys)?;
    check_evidence(
        alloc,
        state,
        socket,
        shared,
        status,
        keys,
        paths.evidence.as_ref(),
    )?;
    check_vmclock(paths.vmclock.as_ref())
}
