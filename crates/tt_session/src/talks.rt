//! A session between its bytes, and the reply to each line that ends.

ghost use Rattle.std.specs.Prelude.{◌≡◌, ℕ, ◌+◌, ◌<◌, ◌≤◌, ◌^◌, List, [], ◌∷◌, ◌++◌, false, if◌then◌else◌, MatchBool};
ghost use Rattle.tt_session.specs.Fault.{line_number_of};
ghost use Rattle.tt_session.specs.Conversation.{Talked};
ghost use Rattle.tt_session.specs.Answers.{AnswersLine};
ghost use Rattle.tt_session.specs.Replies.{text_of, is_refused};
ghost use Rattle.tt_session.specs.Talks.{IsKept, first_talk};
ghost use Rattle.tt_session.specs.Steps.{IsCommitLine, Steps};

use crate::answers::answer;
use crate::begun::Begun;
use crate::faults::LineFault;
use crate::replies::LineReply;
use crate::requests::request_of;
use crate::services::Service;
use crate::serving::Served;
use arrayvec::ArrayVec;
use std::marker::Model;

/// A session between two of its bytes: what is kept of the line so far, the last commit that was begun, and the counts
/// of the lines that were answered. In contracts it is these three.
///
/// It is a value: whoever has it, the service of the session and further bytes can go on with the session, by
/// [`Talk::step`].
#[derive(Drop)]
pub struct Talk {
    /// The bytes of the line so far, at most one more than a line may have. If this is full, the line is too long;
    /// otherwise there is room for its line feed.
    pub(crate) line: ArrayVec<u8, 65>,
    /// The last commit that was begun.
    last: Option<Begun>,
    /// The counts of the lines that were answered.
    served: Served,
}

impl Model for Talk {
    ghost use Rattle.std.specs.Prelude.{◌≤◌};
    ghost use Rattle.tt_session.specs.Talks.{TalkState};

    ghost Value = { TalkState };

    ghost view = { λ t. record { line = t.line.items; last = t.last; served = t.served } };

    ghost invariant = { λ t. t.served.refused ≤ t.served.lines };
}

/// The reply to a line, and whether the line is that of a commit.
#[derive(Clone, Copy)]
pub(crate) struct Judged {
    /// The reply.
    pub(crate) reply: LineReply,
    /// Whether the line is that of a commit.
    pub(crate) is_commit: bool,
}

impl Talk {
    /// A session before its first byte.
    pub fn new() -> Talk
        ensures { result ≡ first_talk }
    {
        Talk {
            line: ArrayVec::new(),
            last: None,
            served: Served {
                lines: 0,
                refused: 0,
            },
        }
    }

    /// The counts of the lines that were answered.
    pub fn served(&self) -> Served
        ensures { result ≡ self.now.served }
    {
        self.served
    }

    /// Keeps one more byte of the line, if there is room.
    pub(crate) fn keep(&mut self, byte: u8)
        ensures kept { (bytes : List ℕ) → IsKept self.old.line bytes → IsKept self.new.line (bytes ++ byte ∷ []) }
        ensures same { self.new ≡ record self.old { line = self.new.line } }
    {
        if !self.line.is_full() {
            self.line.push(byte);
        }
    }

    /// Answers the line, whose line feed has come.
    pub(crate) fn end_line<S: Service>(&mut self, service: &mut S, waits: u32) -> Judged
        requires room { self.old.served.lines + 1 < 2 ^ 64 }
        ensures steps { Steps S.allows waits service.old self.old (10 ∷ []) service.new self.new (text_of result.reply) result.is_commit }
        ensures empty { self.new.line ≡ [] }
        ensures lines { self.new.served.lines ≡ self.old.served.lines + 1 }
    {
        let judged = judge(&mut self.line, service, waits, &mut self.last);
        count(&mut self.served, &judged.reply);
        judged
    }
}

/// The reply to the line. The bytes of the line are dropped.
fn judge<S: Service>(
    line: &mut ArrayVec<u8, 65>,
    service: &mut S,
    waits: u32,
    last: &mut Option<Begun>,
) -> Judged
    ensures answered { (bytes : List ℕ) → IsKept line.old.items bytes →
        Talked S.allows service.old service.new (λ calls. AnswersLine waits last.old bytes calls result.reply last.new) }
    ensures commit { (bytes : List ℕ) → IsKept line.old.items bytes →
        MatchBool result.is_commit (IsCommitLine bytes) (¬ IsCommitLine bytes) }
    ensures empty { line.new.items ≡ [] }
{
    if line.is_full() {
        line.clear();
        return refused(LineFault::LongLine);
    }
    line.push(b'\n');
    let request = request_of(line);
    line.clear();
    match request {
        Some(request) => Judged {
            reply: answer(request, service, waits, last),
            is_commit: request.is_commit(),
        },
        None => refused(LineFault::BadLine),
    }
}

/// A line that the session refuses is not that of a commit.
fn refused(fault: LineFault) -> Judged
    ensures { result ≡ record { reply = LineReply.Refused (line_number_of fault); is_commit = false } }
{
    Judged {
        reply: LineReply::Refused(fault.number()),
        is_commit: false,
    }
}

/// Counts a reply.
fn count(served: &mut Served, reply: &LineReply)
    requires few { served.old.refused ≤ served.old.lines }
    requires room { served.old.lines + 1 < 2 ^ 64 }
    ensures few { served.new.refused ≤ served.new.lines }
    ensures lines { served.new.lines ≡ served.old.lines + 1 }
    ensures refused { served.new.refused ≡ served.old.refused + (if is_refused reply.now then 1 else 0) }
{
    served.lines += 1;
    if reply.is_refused() {
        served.refused += 1;
    }
}
