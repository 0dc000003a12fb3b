//! References that state an interval in which the time lies, or say why they do not.

ghost use Rattle.std.specs.Prelude.{Result};
ghost use Rattle.tt_span.specs.Interval.{Interval};
ghost use Rattle.tt_master.specs.declared.silences.Silence.{Silence as TheSilence};

use crate::silences::Silence;
use tt_span::Span;

/// What a master reads intervals from that it does not make itself, such as the replies of other servers.
pub trait SpanReference {
    /// The reference before a call, what the call gave, and the reference after it. A reference that keeps a list of
    /// what it gives names the next one here; one over real devices may claim nothing.
    ghost gives: { Self → Result Interval TheSilence → Self → Type 0 };

    /// An interval in which the time lies, or why none can be stated now.
    fn read(&mut self) -> Result<Span, Silence>
        ensures gave { gives self.old result self.new };
}
