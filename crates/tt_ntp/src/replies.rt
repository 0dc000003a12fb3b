//! What a reply says, and what it tells of the true time later.

ghost use Rattle.std.specs.Prelude.{◌≡◌, ℕ, ◌≤◌, ◌↔◌, List, Ok, IsOk, IfOk, IfErr};
ghost use Rattle.tt_span.specs.Time.{max_time};
ghost use Rattle.tt_span.specs.Interval.{Holds};
ghost use Rattle.tt_source.specs.Statement.{statement_at, IsPossibleNow};
ghost use Rattle.tt_ntp.specs.Reading.{read_of};
ghost use Rattle.tt_ntp.specs.Aged.{widened, statement_of, IsServerRight};
ghost use Rattle.tt_ntp.specs.declared.queries.Query.{Query};
ghost use Rattle.tt_ntp.specs.declared.replies.Reply.{Reply};

use tt_source::{SourceFault, Statement};
use tt_span::{MAX_TIME, Span};

/// What the server says of the end of the day. It announces a leap second up to a day before.
#[derive(Clone, Copy, Debug, PartialEq, Eq)]
pub enum Leap {
    /// No leap second is announced.
    No,
    /// The last minute of the day has 61 seconds.
    Inserted,
    /// The last minute of the day has 59 seconds.
    Deleted,
}

/// What a reply says: a span that held the true time when the server read its transmit timestamp, if the server is right;
/// whether a leap second is announced; and the stratum, 1 to 15.
#[derive(Clone, Copy, Debug, PartialEq, Eq)]
pub struct Reply {
    pub span: Span,
    pub leap: Leap,
    pub stratum: u8,
}

/// The span with a margin of so many nanoseconds both ways, cut at 0 and `MAX_TIME`.
fn widen(span: Span, margin: u64) -> Span
    ensures { result ≡ widened margin span }
{
    let low = span.lo().saturating_sub(margin);
    let high = span.hi().saturating_add(margin).min(MAX_TIME);
    Span::new(low, high).unwrap()
}

impl Reply {
    /// The statement of this reply: its span with a margin of so many nanoseconds both ways, cut at 0 and `MAX_TIME`. Its
    /// request was sent when the machine's clock showed `sent`, and it came when the clock showed `got`. Refuses with 402
    /// `ClockBack` where `got` is below `sent`, or above `MAX_TIME`.
    pub fn statement(&self, margin: u64, sent: u64, got: u64) -> Result<Statement, SourceFault>
        ensures taken { IsOk result ↔ ((sent ≤ got) × (got ≤ max_time)) }
        ensures value { IfOk result (λ s. s ≡ statement_of margin self.now sent got) }
        ensures refused { IfErr result (λ e. e ≡ SourceFault.ClockBack) }
        // In each run in which the server was right to within the radius and the margin, and the clock kept its drift bound,
        // the statement is true.
        ensures possible { IfOk result (λ s. (query : Query) (bytes : List ℕ) (ppm clock x : ℕ) → read_of query bytes ≡ Ok self.now →
            IsServerRight ppm margin bytes sent got clock x → IsPossibleNow ppm s clock x) }
    {
        Statement::new(widen(self.span, margin), sent, got)
    }
}

/// A law of aged replies. If the server was off by no more than the radius and the margin when it read its transmit
/// timestamp, and the machine's clock kept its drift bound, then the statement of the reply, aged, holds the true time.
pub fn aged_law()
    ensures holds { (query : Query) (bytes : List ℕ) (reply : Reply) (ppm margin sent got clock x : ℕ) → read_of query bytes ≡ Ok reply → sent ≤ got → got ≤ clock →
        IsServerRight ppm margin bytes sent got clock x → Holds (statement_at ppm (statement_of margin reply sent got) clock) x }
{}
