//! What a session asks its client's device: whether the client has left, and whether the machine is broken.

ghost use Rattle.std.specs.Prelude.{◌≡◌, Bool, false};
ghost use Rattle.tt_connections.specs.declared.presence.Question.{Question};

/// What a session asks. In code each question is a call of [`Presence`].
#[derive(Clone, Copy, Debug, PartialEq, Eq)]
pub enum Question {
    /// Whether the client has left.
    HasLeft,
    /// Whether the machine knows that one of its assumptions is broken.
    IsBroken,
}

/// Says whether a client has left while its commit is pending, and whether the machine is broken. It is also told when a
/// commit of the session begins to wait and when that ends, of which nothing is claimed.
pub trait Presence {
    /// What may be answered to each question. A client that is always there is answered `false` to both; of a client
    /// behind a connection anything may be answered.
    ghost says: { Self → Question → Bool → Type 0 };

    /// An answer that `says` allows to the question whether the client has left. Of a client behind a connection any is
    /// allowed. The call is not to wait, and not to take bytes of the session.
    fn has_left(&self) -> bool
        ensures said { says self.now Question.HasLeft result };

    /// An answer that `says` allows to the question whether the machine knows that one of its assumptions is broken: more
    /// than f sources are faulty, or its clock is past the drift bound. Of a client behind a connection any is allowed. The
    /// call is not to wait.
    fn is_broken(&self) -> bool
        ensures said { says self.now Question.IsBroken result };

    /// What a clock shows, in nanoseconds, by which the session knows how long it has waited. None without a clock, as
    /// here. Nothing is claimed of it.
    fn clock(&self) -> Option<u64> {
        None
    }

    /// A commit of the session is queued, and waits from now on. This body does nothing.
    fn began_waiting(&self) {}

    /// The commit waits no more: it is released, or the session ends. This body does nothing.
    fn ended_waiting(&self, _is_released: bool) {}
}

/// A client that never leaves, on a machine that is never broken.
#[derive(Clone, Copy)]
pub struct AlwaysThere;

impl Presence for AlwaysThere {
    ghost says = { λ _ _ answer. answer ≡ false };

    fn has_left(&self) -> bool {
        false
    }

    fn is_broken(&self) -> bool {
        false
    }
}
