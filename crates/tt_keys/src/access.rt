//! Who may use a file of keys.

ghost use Rattle.std.specs.Prelude.{◌≡◌};
ghost use Rattle.tt_keys.specs.Access.{access_at};

use crate::faults::KeysFault;

/// The bits of a mode that are permissions, and not the type of the file.
const PERMISSIONS: u32 = 0o7777;

/// Whether a file with this mode, as in `st_mode`, and this owner may hold the keys of this user. Refuses with 2212 `Mode`
/// where its permissions are neither 0600 nor 0400, then with 2213 `Owner` where its owner is another user.
pub fn access_of(mode: u32, owner: u32, user: u32) -> Result<(), KeysFault>
    ensures value { result ≡ access_at mode owner user }
{
    let permissions = mode & PERMISSIONS;
    if permissions != 0o600 && permissions != 0o400 {
        return Err(KeysFault::Mode);
    }
    if owner == user {
        Ok(())
    } else {
        Err(KeysFault::Owner)
    }
}
