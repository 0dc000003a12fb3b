//! What is waited for: a reply, and the next request.

ghost use Rattle.std.specs.Prelude.{◌≡◌, is_some};
ghost use Rattle.tt_upstream.specs.Server.{left_at};

use crate::servers::Server;

impl Server {
    /// Whether the reply to a request is awaited.
    pub fn is_awaited(&self) -> bool
        ensures { result ≡ is_some self.now.waiting }
    {
        self.waiting.is_some()
    }

    /// How long after the clock reading `now` the next request is due, in nanoseconds: 0 where it is due. None once the
    /// server told this client to stop.
    pub fn left(&self, now: u64) -> Option<u64>
        ensures value { result ≡ left_at self.now now }
    {
        if self.stopped {
            return None;
        }
        Some(self.due.saturating_sub(now))
    }
}
