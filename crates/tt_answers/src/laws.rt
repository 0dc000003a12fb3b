//! What a master's turns keep over a link of sealed requests.

ghost use Rattle.std.specs.Prelude.{◌≡◌, Ok};
ghost use Rattle.tt_span.specs.Interval.{Interval};
ghost use Rattle.tt_master.specs.SpanMaster.{SpanMasterState};
ghost use Rattle.tt_rounds.specs.Answering.{AnswersSealed, Desk};
ghost use Rattle.tt_answers.specs.Sealing.{SealsAnswer};
ghost use Rattle.tt_answers.specs.Turns.{TakesTurn};
ghost use Rattle.tt_answers.specs.declared.turns.Turn.TheVariants.{Answered};

use tt_master::SpanReference;
use tt_rounds::Link;

/// The law of a master whose link hands up sealed requests alone, as [`tt_rounds::SealedAnswers`] does. `S` is what such a link keeps: the link
/// under it, and the desk of its keys.
///
/// It is what `tt_consistency::seal_laws` ask of a right master, but for that the span held the true time.
pub fn answer_laws<S, L: Link, R: SpanReference>()
    // A turn that answered a span answered a request that came sealed under one of the keys. The reference gave the span after it came, and the answer
    // went to the peer that asked, sealed under the same key.
    ensures sealed { (link_of : S → L) (desk_of : S → Desk) (before after : S) (master master' : SpanMasterState R) (span : Interval) →
        TakesTurn R.gives (λ from call gift to. AnswersSealed L.does (link_of from) (desk_of from) call gift (link_of to) (desk_of to)) before master (Ok (Answered span)) after master' →
        SealsAnswer R.gives L.does (desk_of before).asking.keys span (link_of before) master (link_of after) master' }
{}
