//! The keys that are shared with each master.

ghost use Rattle.std.specs.Prelude.{◌≡◌, ◌<◌, ◌^◌, Ok, Err, IfOk, MatchResult, map};
ghost use Rattle.tt_seal.specs.Sealing.{HaveOwnNumbers};
ghost use Rattle.tt_wire.specs.Wire.{keys_in};
ghost use Rattle.tt_server.specs.Ring.{key_for, ring_of, rings_of, IsRefusal};

use crate::faults::ServerFault;
use std::alloc::Global;
use std::fs::{File, Files};
use std::random::RandomSource;
use tt_files::process_owner;
use tt_keys::{KeysFault, keys_at};
use tt_seal::{Key, key_with};
use tt_settings::{MasterSettings, Settings};
use tt_wire::Ring;

/// Nonces on the wire are ahead of those of the daemon by less than this.
const AHEAD: u64 = 0x8000_0000_0000_0000;

/// The key with this number.
fn key_for(keys: &[Key], number: u32) -> Result<Key, ServerFault>
    ensures value { result ≡ key_for keys.now number }
{
    match key_with(keys, number) {
        Some(key) => Ok(key.copy()),
        None => Err(ServerFault::NoKey(number)),
    }
}

/// The keys with these numbers, in their order. Refuses with 1827 `NoKey` at the first number that no key has.
fn ring_of(alloc: Global, keys: &[Key], numbers: &[u32]) -> Result<Ring, ServerFault>
    ensures value { let defined = ring_of keys.now numbers.now in
        MatchResult result (λ ring. defined ≡ Ok (keys_in ring)) (IsRefusal defined) }
{
    let mut ring = Vec::new(alloc);
    for number in numbers {
        let key = match key_for(keys, *number) {
            Ok(key) => key,
            Err(fault) => return Err(fault),
        };
        let Ok(()) = ring.push(key) else {
            return Err(ServerFault::Memory);
        };
    }
    Ok(Ring { keys: ring })
}

/// The keys of each master: those of these keys that have its numbers, in the order of the settings. Refuses with 1827
/// `NoKey` at the first number of the masters that no key has.
pub(crate) fn rings_of(
    alloc: Global,
    keys: &[Key],
    masters: &[MasterSettings],
) -> Result<Vec<Ring>, ServerFault>
    ensures value { let defined = rings_of keys.now masters.now in
        MatchResult result (λ rings. defined ≡ Ok (map keys_in rings.items)) (IsRefusal defined) }
{
    let mut rings = Vec::new(alloc);
    for master in masters {
        let ring = match ring_of(alloc, keys, master.keys()) {
            Ok(ring) => ring,
            Err(fault) => return Err(fault),
        };
        let Ok(()) = rings.push(ring) else {
            return Err(ServerFault::Memory);
        };
    }
    Ok(rings)
}

/// The keys of the file that the settings name; none where they name none. Refuses where the file gives no keys.
pub(crate) fn keys_in_file<R: Files<File = File>>(
    rt: &R,
    alloc: Global,
    settings: &Settings,
) -> Result<Vec<Key>, ServerFault>
    ensures numbers { IfOk result (λ keys. HaveOwnNumbers keys.items) }
{
    let Some(path) = settings.keys() else {
        return Ok(Vec::new(alloc));
    };
    let user = match process_owner(rt) {
        Ok(user) => user,
        Err(reason) => return Err(ServerFault::Keys(KeysFault::UnknownUser(reason))),
    };
    match keys_at(rt, alloc, path.as_str(), user) {
        Ok(keys) => Ok(keys),
        Err(KeysFault::Memory) => Err(ServerFault::Memory),
        Err(fault) => Err(ServerFault::Keys(fault)),
    }
}

/// A number below 2^63: how far the nonces of this life are ahead on the wire. It comes of random bytes of the operating
/// system, of which no clause speaks. Refuses where that gives none.
pub(crate) fn draw_ahead<R: RandomSource>(rt: &R) -> Result<u64, ServerFault>
    ensures below { IfOk result (λ ahead. ahead < 2 ^ 63) }
{
    let mut bytes = [0; 8];
    match rt.fill_bytes(&mut bytes) {
        Ok(()) => Ok(u64::from_be_bytes(bytes) % AHEAD),
        Err(_) => Err(ServerFault::NoRandom),
    }
}
