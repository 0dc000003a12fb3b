//! One step of a session: further bytes, the lines that end in them, and the replies to these.

ghost use Rattle.std.specs.Prelude.{◌≡◌, ◌≤◌, ◌++◌, ◌∷◌, ℕ, List, [], Bool, length, take, IfOk, IfErr};
ghost use Rattle.tt_session.specs.Talks.{TalkState, Stands, first_talk};
ghost use Rattle.tt_session.specs.Steps.{StepsTo, Steps, StopsAt, StopsBefore, is_behind_commit};

use crate::services::Service;
use crate::talks::Talk;
use arrayvec::ArrayVec;

/// How many bytes of replies may wait to be handed over.
pub const STEP_ROOM: usize = 4096;

/// Room in which each reply fits, in bytes.
const REPLY_ROOM: usize = 64;

/// The replies of steps that were not yet handed over to the client.
pub type Replies = ArrayVec<u8, STEP_ROOM>;

/// Why a step stopped.
#[derive(Clone, Copy, Debug, PartialEq, Eq)]
pub enum Stop {
    /// All bytes are taken.
    Heard,
    /// The line of a commit is answered; its reply is the last one. Hand the replies over before the next step.
    Commit,
    /// The next byte ends a line, and fewer than 64 bytes of room are left for its reply. Hand the replies over before
    /// the next step.
    Full,
    /// The next byte ends a line, and 2^64 - 1 lines were answered: the session is over.
    Spent,
}

/// What a step did.
#[derive(Clone, Copy, Debug, PartialEq, Eq)]
pub struct Step {
    /// How many of the bytes it took, from the first on. Give the others to the next step.
    pub taken: usize,
    /// Why it took no more.
    pub stop: Stop,
}

impl Talk {
    /// One step: takes further bytes, and answers each line that ends in them, in order, until one of these is the line
    /// of a commit. The replies are put behind those that were there. What is left of a line is kept in the session.
    ///
    /// Nothing is written here, so replies can be handed over together. No call of the service follows the line of a
    /// commit in a step: its reply can be handed over before the next line is answered.
    ///
    /// A step may stop before all bytes are taken: [`Stop`] says why. If `replies` is empty and a line ends in the
    /// bytes, at least that line is answered, unless the session is over. A pending commit gets at most `waits` release
    /// steps. A step takes no memory, and waits only if the service does.
    pub fn step<S: Service>(
        &mut self,
        bytes: &[u8],
        service: &mut S,
        waits: u32,
        replies: &mut Replies,
    ) -> Step
        // What was taken is lines behind what had come of one, with their replies, over one conversation.
        ensures steps { StepsTo S.allows waits service.old self.old (take result.taken bytes.now) replies.old.items
            service.new self.new replies.new.items (is_behind_commit result.stop) }
        ensures stop { StopsAt result.stop bytes.now result.taken replies.new.items self.new }
        ensures taken { result.taken ≤ length bytes.now }
    {
        for (taken, byte) in bytes.iter().enumerate() {
            match self.hear(*byte, service, waits, replies) {
                Ok(false) => {}
                Ok(true) => return Step {
                    taken: taken + 1,
                    stop: Stop::Commit,
                },
                Err(stop) => return Step { taken, stop },
            }
        }
        Step {
            taken: bytes.len(),
            stop: Stop::Heard,
        }
    }

    /// Takes one byte, and answers the line if the byte ends it. Answers whether the line is that of a commit. If the
    /// step has to stop before this byte, nothing is done.
    fn hear<S: Service>(
        &mut self,
        byte: u8,
        service: &mut S,
        waits: u32,
        replies: &mut Replies,
    ) -> Result<bool, Stop>
        ensures ok { IfOk result (λ is_commit. StepsTo S.allows waits service.old self.old (byte ∷ []) replies.old.items
            service.new self.new replies.new.items is_commit) }
        ensures err { IfErr result (λ stop. StopsBefore stop byte replies.new.items self.new
            × (service.new ≡ service.old) × (self.new ≡ self.old) × (replies.new.items ≡ replies.old.items)) }
    {
        if byte != b'\n' {
            self.keep(byte);
            return Ok(false);
        }
        if replies.remaining_capacity() < REPLY_ROOM {
            return Err(Stop::Full);
        }
        if self.served().lines == u64::MAX {
            return Err(Stop::Spent);
        }
        let judged = self.end_line(service, waits);
        judged.reply.put(replies);
        Ok(judged.is_commit)
    }
}

/// A law of steps: a new session stands before its first byte, and where a session stood behind some bytes, and a step
/// takes further ones, it stands behind all of them, with the replies of the step behind those before. So a chain of
/// steps from a new session is a session over all bytes that they took.
pub fn step_laws<S: Service>()
    ensures first { (service : S) (waits : ℕ) → Stands S.allows waits service [] service [] first_talk }
    ensures more { (waits : ℕ) (first before after : S) (past bytes told text : List ℕ) (talk talks : TalkState)
        (is_commit : Bool) → Stands S.allows waits first past before told talk
        → Steps S.allows waits before talk bytes after talks text is_commit
        → Stands S.allows waits first (past ++ bytes) after (told ++ text) talks }
{}
