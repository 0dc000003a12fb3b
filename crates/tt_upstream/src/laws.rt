//! Laws of servers over whole runs.

ghost use Rattle.std.specs.Prelude.{◌≡◌, ℕ, ◌≤◌, List, map, Some, Ok, IsErr, IsTrue};
ghost use Rattle.tt_span.specs.Time.{max_time};
ghost use Rattle.tt_span.specs.Interval.{Interval, Holds};
ghost use Rattle.tt_fuse.specs.Fusion.{IsFusion};
ghost use Rattle.tt_upstream.specs.Fused.{Said, span_for, wrong_at};
ghost use Rattle.tt_upstream.specs.Leap.{is_near};
ghost use Rattle.tt_upstream.specs.Server.{ServerState, new_server};
ghost use Rattle.tt_upstream.specs.Span.{span_at, known_span};
ghost use Rattle.tt_upstream.specs.Run.{Event, after, AreRightAt, AreNoRelease};
ghost use Rattle.tt_upstream.specs.declared.leaps.Announced.{Announced};
ghost use Rattle.tt_upstream.specs.declared.plans.Plan.{Plan};

/// A law of one server. Whatever was asked and whatever came, what it says holds the true time, in each run in which the
/// server was off by no more than its radius and the margin when it read the transmit timestamp of each of its replies, and
/// the machine's clock kept its drift bound.
pub fn server_law()
    ensures holds { (plan : Plan) (events : List Event) (clock x : ℕ) (span : Interval) → AreRightAt clock x (new_server plan) events →
        span_at (after (new_server plan) events) clock ≡ Ok span → Holds span x }
{}

/// A law of leap seconds. Once what is known reaches the last minute before the announced leap second, the server says
/// nothing, whatever is asked and whatever comes, until a reply comes that lies behind the leap second and announces none, or
/// that lies an hour behind it, or before its last minute.
pub fn leap_law()
    ensures silent { (server : ServerState) (announced : Announced) (events : List Event) (then now : ℕ) → server.leap ≡ Some announced →
        IsTrue (is_near server.leap (known_span server then)) → then ≤ now → AreNoRelease announced server events → IsErr (span_at (after server events) now) }
{}

/// A law of several servers. The fusion of what they say holds the true time, if at most `faulty` of them say a span that does
/// not hold it.
pub fn fused_law()
    ensures holds { (said : List Said) (faulty x : ℕ) (span : Interval) → IsFusion (map span_for said) faulty span → x ≤ max_time →
        wrong_at said x ≤ faulty → Holds span x }
{}
