//! Where commits stand, by their ids.

ghost use Rattle.std.specs.Prelude.{◌≡◌, ℕ, ◌<◌, ◌≤◌, ◌↔◌, ◌==◌, true, false, length, nat_lt, ◌&&◌, if◌then◌else◌, IsTrue, Some, None, IsSome, is_some, IfSome, IfNone, OnOk, IfOk, OnErr};
ghost use Rattle.std.specs.List.{AllByRecursion};
ghost use Rattle.std.specs.List.Sorted.{IsPartitionPoint};
ghost use Rattle.tt_stamp.specs.Ids.{same_id};
ghost use Rattle.tt_stamp.specs.Standings.{Ascends, IsKeyAt, GoesTo, AreRisen, IsInOrder, at_key, risen_in, standing_in};
ghost use Rattle.tt_stamp.specs.declared.commits.Id.{Id};
ghost use Rattle.tt_stamp.specs.declared.commits.Standing.{Standing};

use crate::commits::{Id, Standing};
use std::alloc::{AllocError, Global};
use std::collections::BTreeMap;

// Numbers of a session in order, and where the commits stand.
type Numbers = Vec<(u64, Standing)>;

// With no more sessions than these a new one may come between them. Then moving those behind it takes little.
const FEW_SESSIONS: usize = 4_096;

/// Where commits stand, by their ids. A session mostly numbers its commits upwards, so a new number goes to the end of
/// the session's numbers. A tree has the ids that did not rise.
#[derive(Drop)]
pub(crate) struct Standings {
    // The sessions in order, each with the numbers that rose.
    sessions: Vec<(u64, Numbers)>,
    others: BTreeMap<Id, Standing>,
}

impl Standings {
    /// No commit stands anywhere.
    pub(crate) fn new(alloc: Global) -> Standings
        ensures order { IsInOrder result }
        ensures none { (id : Id) → standing_in result id ≡ None }
    {
        Standings {
            sessions: Vec::new(alloc),
            others: BTreeMap::new(alloc),
        }
    }

    /// Where a commit stands, if it was queued.
    pub(crate) fn get(&self, id: Id) -> Option<Standing>
        requires { IsInOrder self.now }
        ensures { result ≡ standing_in self.now id }
    {
        let risen = risen(&self.sessions, id);
        if risen.is_some() {
            return risen;
        }
        self.others.get(&id).copied()
    }

    /// Puts in a commit with a new id, which is pending.
    pub(crate) fn add(&mut self, id: Id) -> Result<(), AllocError>
        requires order { IsInOrder self.old }
        requires new { standing_in self.old id ≡ None }
        ensures order { IsInOrder self.new }
        ensures ok { OnOk result ((other : Id) → standing_in self.new other ≡
            (if same_id id other then Some Standing.Waits else standing_in self.old other)) }
        ensures err { OnErr result ((other : Id) → standing_in self.new other ≡ standing_in self.old other) }
    {
        if add_risen(&mut self.sessions, id)? {
            return Ok(());
        }
        self.others.insert(id, Standing::Waits)?;
        Ok(())
    }

    /// Writes the new standing of a commit that is there.
    pub(crate) fn set(&mut self, id: Id, standing: Standing)
        requires order { IsInOrder self.old }
        requires there { IsSome (standing_in self.old id) }
        ensures order { IsInOrder self.new }
        ensures standings { (other : Id) → standing_in self.new other ≡
            (if same_id id other then Some standing else standing_in self.old other) }
    {
        if !set_risen(&mut self.sessions, id, standing) {
            *self.others.get_mut(&id).unwrap() = standing;
        }
    }
}

// Where a commit stands whose number rose.
fn risen(sessions: &[(u64, Numbers)], id: Id) -> Option<Standing>
    requires { AreRisen sessions.now }
    ensures { result ≡ risen_in sessions.now id }
{
    let session = find(sessions, u64::from(id.session))?;
    let numbers = &sessions[session].1;
    let number = find(numbers, id.number)?;
    Some(numbers[number].1)
}

// Puts in a pending commit whose number is the greatest of its session, or whose session is new. Answers whether it did:
// not where a smaller number came late, or a smaller session among many.
fn add_risen(sessions: &mut Vec<(u64, Numbers)>, id: Id) -> Result<bool, AllocError>
    requires { AreRisen sessions.old.items }
    ensures order { AreRisen sessions.new.items }
    ensures ok { IfOk result (λ risen. (other : Id) → risen_in sessions.new.items other ≡
        (if risen && same_id id other then Some Standing.Waits else risen_in sessions.old.items other)) }
    ensures err { OnErr result ((other : Id) → risen_in sessions.new.items other ≡ risen_in sessions.old.items other) }
{
    let session = u64::from(id.session);
    if let Some(place) = find(sessions, session) {
        if !is_above(&sessions[place].1, id.number) {
            return Ok(false);
        }
        add_number(&mut sessions[place].1, id.number)?;
        return Ok(true);
    }
    let Some(place) = place_for(sessions, session) else {
        return Ok(false);
    };
    sessions.reserve(1)?;
    let mut numbers = Vec::new(*sessions.allocator());
    add_number(&mut numbers, id.number)?;
    let _ = sessions.insert(place, (session, numbers));
    Ok(true)
}

// The place of a new session: behind all others, or between them while they are few.
fn place_for(sessions: &[(u64, Numbers)], session: u64) -> Option<usize>
    requires { Ascends sessions.now }
    ensures { IfSome result (λ place. GoesTo sessions.now session place) }
{
    if is_above(sessions, session) {
        return Some(sessions.len());
    }
    if sessions.len() > FEW_SESSIONS {
        return None;
    }
    Some(count_below(sessions, session))
}

// Puts a pending commit, whose number is above all, at the end of its session's.
fn add_number(numbers: &mut Numbers, number: u64) -> Result<(), AllocError>
    requires order { Ascends numbers.old.items }
    requires above { AllByRecursion (λ entry. entry.0 < number) numbers.old.items }
    ensures order { Ascends numbers.new.items }
    ensures ok { OnOk result ((other : ℕ) → at_key numbers.new.items other ≡
        (if number == other then Some Standing.Waits else at_key numbers.old.items other)) }
    ensures err { OnErr result (numbers.new.items ≡ numbers.old.items) }
{
    numbers.push((number, Standing::Waits))?;
    Ok(())
}

// Writes the new standing of a commit whose number rose. Answers whether there is one with this id.
fn set_risen(sessions: &mut Vec<(u64, Numbers)>, id: Id, standing: Standing) -> bool
    requires { AreRisen sessions.old.items }
    ensures order { AreRisen sessions.new.items }
    ensures there { result ≡ is_some (risen_in sessions.old.items id) }
    ensures standings { (other : Id) → risen_in sessions.new.items other ≡
        (if result && same_id id other then Some standing else risen_in sessions.old.items other) }
{
    match find(sessions, u64::from(id.session)) {
        Some(place) => set_number(&mut sessions[place].1, id.number, standing),
        None => false,
    }
}

// Writes the new standing of a commit by its number, in its session. Answers whether there is one.
fn set_number(numbers: &mut Numbers, number: u64, standing: Standing) -> bool
    requires { Ascends numbers.old.items }
    ensures order { Ascends numbers.new.items }
    ensures there { result ≡ is_some (at_key numbers.old.items number) }
    ensures standings { (other : ℕ) → at_key numbers.new.items other ≡
        (if result && (number == other) then Some standing else at_key numbers.old.items other) }
{
    let Some(place) = find(numbers, number) else {
        return false;
    };
    numbers[place].1 = standing;
    true
}

// Whether a key is above all keys of these entries.
fn is_above<V>(entries: &[(u64, V)], key: u64) -> bool
    requires { Ascends entries.now }
    ensures { IsTrue result → AllByRecursion (λ entry. entry.0 < key) entries.now }
{
    let end = entries.len();
    end == 0 || entries[end - 1].0 < key
}

// The place of a key. It is first looked for where it stands if keys follow one another, then where it stands if they are
// evenly apart.
fn find<V>(entries: &[(u64, V)], key: u64) -> Option<usize>
    requires { Ascends entries.now }
    ensures found { IfSome result (λ place. IsKeyAt entries.now key place) }
    ensures none { IfNone result (at_key entries.now key ≡ None) }
{
    let len = entries.len();
    if len == 0 {
        return None;
    }
    let (first, last) = (entries[0].0, entries[len - 1].0);
    if key < first || last < key {
        return None;
    }
    let near = (key - first) as usize;
    if is_at(entries, near, key) {
        return Some(near);
    }
    let even = even_place(first, last, len, key);
    if is_at(entries, even, key) {
        return Some(even);
    }
    let place = count_below(entries, key);
    if is_at(entries, place, key) {
        Some(place)
    } else {
        None
    }
}

// Whether the entry at this place is there and has this key.
fn is_at<V>(entries: &[(u64, V)], place: usize, key: u64) -> bool
    ensures { IsTrue result ↔ IsKeyAt entries.now key place }
{
    place < entries.len() && entries[place].0 == key
}

// The place of a key where keys are evenly apart. A product that wraps is a bad guess, and no more.
fn even_place(first: u64, last: u64, len: usize, key: u64) -> usize
    requires { (0 < len) × (first ≤ key) × (key ≤ last) }
{
    ((key - first).wrapping_mul(len as u64 - 1) / (last - first).max(1)) as usize
}

// How many keys are below this one.
fn count_below<V>(entries: &[(u64, V)], key: u64) -> usize
    requires { Ascends entries.now }
    ensures within { result ≤ length entries.now }
    ensures divided { IsPartitionPoint (λ entry. nat_lt entry.0 key ≡ true) (λ entry. nat_lt entry.0 key ≡ false) entries.now result }
{
    entries.partition_point(|entry| entry.0 < key)
}
