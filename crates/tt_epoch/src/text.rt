//! The text of an epoch file.

ghost use Rattle.std.specs.Prelude.{◌≡◌, ◌≤◌, ℕ, [], ◌∷◌, ◌++◌, length, MatchOption};
ghost use Rattle.std.specs.Fmt.{decimal};
ghost use Rattle.tt_epoch.specs.Text.{IsEpoch, head, text_of};

use arrayvec::ArrayString;
use itoa::Buffer;
use tt_files::number_of;

/// The text of an epoch file: `tt-epoch 1 `, the epoch in decimal digits, and a line feed. At most 32 bytes.
pub fn epoch_text(epoch: u64) -> ArrayString<32>
    ensures written { result.bytes ≡ text_of epoch }
{
    let mut buffer = Buffer::new();
    let digits = buffer.format(epoch);
    let mut text = ArrayString::new();
    text.push_str("tt-epoch 1 ");
    text.push_str(digits);
    text.push_str("\n");
    text
}

/// The epoch of this text, if it is as [`epoch_text`] writes it. None for any other text: another version, a number
/// above 2^64 - 1 or with a leading zero or a sign, a byte too few or too many.
pub fn epoch_of(text: &[u8]) -> Option<u64>
    ensures read { MatchOption result ((epoch : ℕ) → IsEpoch epoch → text.now ≡ text_of epoch → ⊥) (λ epoch. text.now ≡ text_of epoch) }
{
    let rest = text.strip_prefix(b"tt-epoch 1 ")?;
    let digits = rest.strip_suffix(b"\n")?;
    number_of(digits)
}
