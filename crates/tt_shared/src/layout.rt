//! Where the parts of a shared file stand: a head, and two slots behind it.

ghost use Rattle.std.specs.Prelude.{◌≡◌};
ghost use Rattle.tt_shared.specs.Writing.{slot_place as place_of_slot};

/// The length of the head, the bytes before the slots.
pub const HEAD_LEN: usize = 64;

/// The length of a slot, in bytes.
pub const SLOT_LEN: usize = 128;

/// How many bytes of a slot have numbers. Zeros follow.
pub const USED_LEN: usize = 120;

/// The length of a shared file, in bytes.
pub const FILE_LEN: usize = HEAD_LEN + 2 * SLOT_LEN;

/// Where the slot of the publication with this count begins, in bytes from the beginning of the file.
pub(crate) fn slot_place(count: u64) -> u64
    ensures { result ≡ place_of_slot count }
{
    HEAD_LEN as u64 + SLOT_LEN as u64 * (count % 2)
}
