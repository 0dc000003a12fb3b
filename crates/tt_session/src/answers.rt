//! Which calls of the service a request takes, and the reply to it.

ghost use Rattle.std.specs.Prelude.{◌≡◌};
ghost use Rattle.tt_session.specs.Conversation.{Talked};
ghost use Rattle.tt_session.specs.Answers.{Answers, Commits, Begins, GoesOn, Releases, Passes, SetsLease};

use crate::begun::Begun;
use crate::faults::LineFault;
use crate::replies::LineReply;
use crate::requests::Request;
use crate::services::Service;
use std::cmp::Ordering;

/// Answers a request. A pending commit gets at most `waits` release steps.
pub(crate) fn answer<S: Service>(
    request: Request,
    service: &mut S,
    waits: u32,
    last: &mut Option<Begun>,
) -> LineReply
    ensures { Talked S.allows service.old service.new (λ calls. Answers waits last.old request calls result last.new) }
{
    match request {
        Request::Now => match service.now() {
            Ok(reading) => LineReply::Now(reading),
            Err(fault) => LineReply::Refused(fault),
        },
        Request::After(time) => match service.now() {
            Ok(reading) => if reading.after(time) {
                LineReply::Yes
            } else {
                LineReply::No
            },
            Err(fault) => LineReply::Refused(fault),
        },
        Request::Before(time) => match service.now() {
            Ok(reading) => if reading.before(time) {
                LineReply::Yes
            } else {
                LineReply::No
            },
            Err(fault) => LineReply::Refused(fault),
        },
        Request::Commit { number, floor } => commit(number, floor, service, waits, last),
        Request::Lease { lo, hi } => lease(lo, hi, service, last),
    }
}

/// Answers the line of a commit. The last commit goes on; a new one begins if the last one is known as released.
fn commit<S: Service>(
    number: u64,
    floor: u64,
    service: &mut S,
    waits: u32,
    last: &mut Option<Begun>,
) -> LineReply
    ensures { Talked S.allows service.old service.new (λ calls. Commits waits number floor last.old calls result last.new) }
{
    match *last {
        None => begin(number, floor, service, waits, last),
        Some(begun) => match number.cmp(&begun.number) {
            Ordering::Less => LineReply::Refused(LineFault::OldId.number()),
            Ordering::Equal => go_on(begun, service, waits, last),
            Ordering::Greater => {
                if begun.is_released {
                    begin(number, floor, service, waits, last)
                } else {
                    LineReply::Refused(LineFault::OtherWaits.number())
                }
            }
        },
    }
}

/// Begins a commit. If the service refuses it, the last commit stays the last.
fn begin<S: Service>(
    number: u64,
    floor: u64,
    service: &mut S,
    waits: u32,
    last: &mut Option<Begun>,
) -> LineReply
    ensures { Talked S.allows service.old service.new (λ calls. Begins waits number floor last.old calls result last.new) }
{
    match service.begin(number, floor) {
        Ok(stamp) => release(number, stamp, service, waits, last),
        Err(fault) => LineReply::Refused(fault),
    }
}

/// Goes on with the last commit.
fn go_on<S: Service>(
    begun: Begun,
    service: &mut S,
    waits: u32,
    last: &mut Option<Begun>,
) -> LineReply
    ensures { Talked S.allows service.old service.new (λ calls. GoesOn waits begun calls result last.new) }
{
    if begun.is_released {
        *last = Some(begun);
        return LineReply::Committed {
            number: begun.number,
            stamp: begun.stamp,
        };
    }
    release(begun.number, begun.stamp, service, waits, last)
}

/// Releases a commit that was begun, where that may be.
fn release<S: Service>(
    number: u64,
    stamp: u64,
    service: &mut S,
    waits: u32,
    last: &mut Option<Begun>,
) -> LineReply
    ensures { Talked S.allows service.old service.new (λ calls. Releases waits number stamp calls result last.new) }
{
    let (reply, is_released) = match pass(number, service, waits) {
        Ok(true) => (LineReply::Committed { number, stamp }, true),
        Ok(false) => (LineReply::Waiting { number, stamp }, false),
        Err(fault) => (LineReply::Refused(fault), false),
    };
    *last = Some(Begun {
        number,
        stamp,
        is_released,
    });
    reply
}

/// Sets the lease of the session by one call of the service.
fn lease<S: Service>(lo: u64, hi: u64, service: &mut S, last: &mut Option<Begun>) -> LineReply
    ensures { Talked S.allows service.old service.new (λ calls. SetsLease lo hi last.old calls result last.new) }
{
    match service.lease(lo, hi) {
        Ok(()) => LineReply::Leased { lo, hi },
        Err(fault) => LineReply::Refused(fault),
    }
}

/// Makes release steps until one says yes or is refused, at most `waits`.
fn pass<S: Service>(number: u64, service: &mut S, waits: u32) -> Result<bool, u16>
    ensures { Talked S.allows service.old service.new (λ calls. Passes waits number calls result) }
{
    for _ in 0..waits {
        match service.pass(number) {
            Ok(true) => return Ok(true),
            Ok(false) => {}
            Err(fault) => return Err(fault),
        }
    }
    Ok(false)
}
