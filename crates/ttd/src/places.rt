//! Files of the settings that are one file, though their paths differ: by a `..`, or a link to their folder.

ghost use Rattle.std.specs.Prelude.{◌≡◌, IfOk};
ghost use Rattle.std.specs.List.{list_any};
ghost use Rattle.ttd.specs.Places.{is_one_folder, is_taken, meets_at, meets_state_at};

use std::alloc::{AllocError, Global};
use std::fs::Files;
use tt_files::{Facts, facts_at};
use tt_settings::{FilePath, Key, Settings, SettingsFault, meets, meets_state};
use tt_sharing::folder_and_name;

/// Where a file is: its folder, and its name there.
#[derive(Drop)]
struct Place {
    folder: Facts,
    name: String,
}

/// Whether both are the same folder: the same inode on the same device.
fn is_one_folder(one: &Facts, other: &Facts) -> bool
    ensures { result ≡ is_one_folder one.now other.now }
{
    one.device == other.device && one.inode == other.inode
}

/// Whether two places, with their drafts and locks, have a file in common.
fn meets_at(alloc: Global, one: &Place, other: &Place) -> Result<bool, AllocError>
    ensures { IfOk result (λ met. met ≡ meets_at one.now other.now) }
{
    let met = meets(alloc, one.name.as_str(), other.name.as_str())?;
    Ok(is_one_folder(&one.folder, &other.folder) && met)
}

/// Whether a place has a file in common with the folder of the state, which is at the other one.
fn meets_state_at(alloc: Global, one: &Place, state: &Place) -> Result<bool, AllocError>
    ensures { IfOk result (λ met. met ≡ meets_state_at one.now state.now) }
{
    let met = meets_state(alloc, one.name.as_str(), state.name.as_str())?;
    Ok(is_one_folder(&one.folder, &state.folder) && met)
}

/// Whether a place has a file in common with one of these.
fn meets_one(alloc: Global, place: &Place, before: &[Place]) -> Result<bool, AllocError>
    ensures { IfOk result (λ met. met ≡ list_any (meets_at place.now) before.now) }
{
    for other in before {
        if meets_at(alloc, place, other)? {
            return Ok(true);
        }
    }
    Ok(false)
}

/// Whether a place has a file in common with the folder of the state, which is at each of these.
fn meets_one_state(alloc: Global, place: &Place, states: &[Place]) -> Result<bool, AllocError>
    ensures { IfOk result (λ met. met ≡ list_any (meets_state_at place.now) states.now) }
{
    for state in states {
        if meets_state_at(alloc, place, state)? {
            return Ok(true);
        }
    }
    Ok(false)
}

/// Whether a place has a file in common with the state, which is at each of these, or with one of the places before it.
fn is_taken(
    alloc: Global,
    states: &[Place],
    before: &[Place],
    place: &Place,
) -> Result<bool, AllocError>
    ensures { IfOk result (λ taken. taken ≡ is_taken states.now before.now place.now) }
{
    let with_state = meets_one_state(alloc, place, states)?;
    let with_one = meets_one(alloc, place, before)?;
    Ok(with_state || with_one)
}

/// The place of a file with this name in the folder at this path. None if there is no such folder.
fn place_in<H: Files>(
    rt: &H,
    alloc: Global,
    folder: &str,
    name: &str,
    end: &str,
) -> Result<Option<Place>, AllocError> {
    let mut whole = String::from_str(alloc, name)?;
    whole.push_str(end)?;
    match facts_at(rt, folder) {
        Ok(Some(facts)) => Ok(Some(Place {
            folder: facts,
            name: whole,
        })),
        _ => Ok(None),
    }
}

/// Where the state is: its folder has a place, and its files have that folder.
fn states_of<H: Files>(rt: &H, alloc: Global, state: &str) -> Result<Vec<Place>, AllocError> {
    let mut states = Vec::new(alloc);
    let (folder, name) = folder_and_name(state);
    if let Some(place) = place_in(rt, alloc, folder, name, "")? {
        states.push(place)?;
    }
    if let Some(place) = place_in(rt, alloc, state, ".", "")? {
        states.push(place)?;
    }
    Ok(states)
}

/// Adds the place of a path with this end to those before it, unless its folder is not there. Refuses the key where the file
/// has another purpose.
fn push_place<H: Files>(
    rt: &H,
    states: &[Place],
    before: &mut Vec<Place>,
    key: Key,
    path: Option<&FilePath>,
    end: &str,
) -> Result<(), SettingsFault> {
    let Some(path) = path else {
        return Ok(());
    };
    let alloc = *before.allocator();
    let (folder, name) = folder_and_name(path.as_str());
    let Some(place) = place_in(rt, alloc, folder, name, end)? else {
        return Ok(());
    };
    if is_taken(alloc, states, before.as_slice(), &place)? {
        return Err(SettingsFault::SamePath(key));
    }
    before.push(place)?;
    Ok(())
}

/// Refuses with 1817 `SamePath` where two files of the settings are one, as their folders are found now: the first key of
/// `socket`, `shared`, `status`, `keys` and `evidence` whose file is that of one before it, or one of the state. Folders are
/// compared by device and inode, and names in them by their texts. A path whose folder is not there is left out.
pub(crate) fn check_places<H: Files>(
    rt: &H,
    alloc: Global,
    settings: &Settings,
) -> Result<(), SettingsFault> {
    let states = states_of(rt, alloc, settings.state())?;
    let states = states.as_slice();
    let mut before = Vec::new(alloc);
    let evidence = settings.evidence();
    push_place(rt, states, &mut before, Key::Socket, settings.socket(), "")?;
    push_place(rt, states, &mut before, Key::Shared, settings.shared(), "")?;
    push_place(rt, states, &mut before, Key::Status, settings.status(), "")?;
    push_place(rt, states, &mut before, Key::Keys, settings.keys(), "")?;
    push_place(rt, states, &mut before, Key::Evidence, evidence, "")?;
    push_place(rt, states, &mut before, Key::Evidence, evidence, ".break-1")?;
    push_place(rt, states, &mut before, Key::Evidence, evidence, ".break-2")
}
