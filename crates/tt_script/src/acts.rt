//! The acts of a master, as texts.

ghost use Rattle.std.specs.Prelude.{◌≡◌, ◌≢◌, ◌⊎◌, ◌<◌, ◌≤◌, List, ℕ, codes, length, slice_index, IsTrue, IsFalse, Ok, Err, Some, MatchResult};
ghost use Rattle.toml.specs.View.{view, array_view};
ghost use Rattle.tt_span.specs.Time.{max_time};
ghost use Rattle.tt_master.specs.declared.acts.Act.{Act as AnyAct};
ghost use Rattle.tt_script.specs.Fault.{IsRefusal};
ghost use Rattle.tt_script.specs.Lookup.{each};
ghost use Rattle.tt_script.specs.Acts.{act_text, offset_of, time_of, time_behind, act_with_time, act_at, act_in, act_of, act_items_in, acts_in};

use crate::faults::{Part, ScriptFault, wrong};
use crate::keys::Key;
use crate::lookups::{has_few, items_in};
use std::alloc::Global;
use std::marker::Model;
use toml::Value;
use toml::value::Array;
use tt_master::Act;
use tt_span::MAX_TIME;

/// The most acts of a master in a script.
pub const MAX_ACTS: usize = 64;

/// The acts of a master, in the order in which it plays them: from one to [`MAX_ACTS`].
#[derive(Drop)]
pub struct Acts {
    items: Vec<Act>,
}

impl Model for Acts {
    ghost use Rattle.std.specs.Prelude.{List, ◌<◌, ◌≤◌, length};
    ghost use Rattle.tt_master.specs.declared.acts.Act.{Act};

    ghost Value = { List Act };

    ghost view = { λ a. a.items.items };

    ghost invariant = { λ a. (0 < length a.items.items) × (length a.items.items ≤ 64) };
}

impl Acts {
    /// The acts, in their order.
    pub fn as_slice(&self) -> &[Act]
        ensures value { result.now ≡ self.now }
        ensures some { 0 < length result.now }
        ensures few { length result.now ≤ 64 }
    {
        self.items.as_slice()
    }
}

/// Laws of the texts of acts. The text of an act is `honest`, `ahead N`, `behind N`, `silent`, `garbage` or `repeat`,
/// where N is a time in nanoseconds, at most the greatest time, in decimal digits without leading zeros.
///
/// If the time of an act is in range, the text of the act is read as this act. If a text is read as an act, it is the
/// text of this act.
pub fn act_laws()
    ensures reads_back { (act : AnyAct) → offset_of act ≤ max_time → act_in (act_text act) ≡ Some act }
    ensures only { (text : List ℕ) (act : AnyAct) → act_in text ≡ Some act → (act_text act ≡ text) × (offset_of act ≤ max_time) }
{}

/// The acts that an array lists.
pub(crate) fn acts_in(alloc: Global, part: Part, value: &Value) -> Result<Acts, ScriptFault>
    ensures { let defined = acts_in part (view value.now) in
        MatchResult result (λ acts. defined ≡ Ok acts) (IsRefusal defined) }
{
    let items = acts_of(alloc, part, act_items_in(part, value)?)?;
    Ok(Acts { items })
}

/// The items of an array of acts: from one to [`MAX_ACTS`].
fn act_items_in(part: Part, value: &Value) -> Result<&Array, ScriptFault>
    ensures { let defined = act_items_in part (view value.now) in
        MatchResult result (λ items. defined ≡ Ok (array_view items.now)) (λ fault. defined ≡ Err fault) }
{
    let items = items_in(part, Key::Acts, value)?;
    if has_few(Key::Acts, items) {
        Ok(items)
    } else {
        Err(wrong(part, Key::Acts))
    }
}

/// The acts, one after the other.
fn acts_of(alloc: Global, part: Part, items: &Array) -> Result<Vec<Act>, ScriptFault>
    ensures { let defined = each (act_at part) 0 (array_view items.now) in
        MatchResult result (λ acts. defined ≡ Ok acts.items) (IsRefusal defined) }
{
    let mut acts = Vec::new(alloc);
    for item in items {
        acts.push(act_of(part, item)?)?;
    }
    Ok(acts)
}

/// The act in this value.
fn act_of(part: Part, value: &Value) -> Result<Act, ScriptFault>
    ensures { result ≡ act_of part (view value.now) }
{
    let Some(text) = value.as_str() else {
        return Err(wrong(part, Key::Acts));
    };
    match act_in(text) {
        Some(act) => Ok(act),
        None => Err(wrong(part, Key::Acts)),
    }
}

/// The act of this text, as [`act_laws`] says. None for any other text.
pub fn act_in(text: &str) -> Option<Act>
    ensures { result ≡ act_in text.now }
{
    match text {
        "honest" => Some(Act::Honest),
        "silent" => Some(Act::Silent),
        "garbage" => Some(Act::Garbage),
        "repeat" => Some(Act::Repeat),
        _ => act_with_time(text),
    }
}

/// The act with a time in this text.
fn act_with_time(text: &str) -> Option<Act>
    ensures { result ≡ act_with_time (time_behind (codes "ahead ") text.now) (time_behind (codes "behind ") text.now) }
{
    if let Some(time) = time_behind("ahead ", text) {
        return Some(Act::Ahead(time));
    }
    match time_behind("behind ", text) {
        Some(time) => Some(Act::Behind(time)),
        None => None,
    }
}

/// The time behind this word in the text.
fn time_behind(word: &str, text: &str) -> Option<u64>
    ensures { result ≡ time_behind word.now text.now }
{
    match text.strip_prefix(word) {
        Some(digits) => time_of(digits),
        None => None,
    }
}

/// The time of these decimal digits without leading zeros.
fn time_of(digits: &str) -> Option<u64>
    ensures { result ≡ time_of digits.now }
{
    if !begins_plainly(digits.as_bytes()) {
        return None;
    }
    let Ok(time) = digits.parse::<u64>() else {
        return None;
    };
    if time <= MAX_TIME { Some(time) } else { None }
}

/// Whether the digits begin without a plus, and with a zero only if it stands alone.
fn begins_plainly(digits: &[u8]) -> bool
    ensures plain { IsTrue result → (slice_index digits.now 0 ≢ 43) × (slice_index digits.now 0 ≡ 48 → length digits.now ≤ 1) }
    ensures other { IsFalse result → (slice_index digits.now 0 ≡ 43) ⊎ ((slice_index digits.now 0 ≡ 48) × (1 < length digits.now)) }
{
    if digits.is_empty() {
        return true;
    }
    digits[0] != b'+' && (digits[0] != b'0' || digits.len() == 1)
}
