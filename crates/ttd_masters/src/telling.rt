//! What a master tells of its turns and of its servers.

ghost use Rattle.std.specs.Prelude.{◌≡◌, OnOk};
ghost use Rattle.ttd_masters.specs.Telling.{status_of as status_told};

use crate::hosts::AsksServers;
use crate::players::Player;
use crate::references::KnownTime;
use crate::standing::Told;
use std::alloc::AllocError;
use std::sync::Wait;
use std::time::Clock as SystemClock;
use tt_clock::reading_of;
use tt_status::ServerStatus;
use tt_upstream::Server;

/// What is told of a server at this reading of the monotonic clock, in nanoseconds.
fn status_of(server: &Server, now: u64) -> ServerStatus
    ensures { result ≡ status_told server.now now }
{
    let (silence, width) = match server.span(now) {
        Ok(span) => (0, Some(span.hi() - span.lo())),
        Err(silence) => (u64::from(silence.number()), None),
    };
    ServerStatus {
        silence,
        stratum: server.stratum(),
        distance: server.distance(),
        age: server.age(now),
        leap: server.leap(),
        asked: server.asked(),
        taken: server.taken(),
        refused: server.refused(),
        kisses: server.kisses(),
        width,
    }
}

/// What is told of the servers from which the time is known.
fn statuses_of<H: Wait + SystemClock + AsksServers + AllocGlobal>(
    rt: &H,
    known: &KnownTime<'_, H>,
) -> Result<Vec<ServerStatus>, AllocError> {
    let mut statuses = Vec::new(rt.alloc());
    let KnownTime::Ntp(servers) = known else {
        return Ok(statuses);
    };
    let Some(now) = reading_of(rt) else {
        return Ok(statuses);
    };
    for server in servers.servers() {
        let status = status_of(&server.lock(rt), now);
        statuses.push(status)?;
    }
    Ok(statuses)
}

/// What a master tells of itself now. The greatest width is counted anew from here on.
pub(crate) fn told_by<H: Wait + SystemClock + AsksServers + AllocGlobal>(
    rt: &H,
    player: &mut Player<'_, H>,
) -> Result<Told, AllocError> {
    let Player::Honest(honest) = player else {
        return Ok(Told::nothing(rt.alloc()));
    };
    let servers = statuses_of(rt, honest.known())?;
    let widest = honest.take_widest();
    let tally = honest.tally();
    Ok(Told {
        unanswered: tally.unanswered,
        width: tally.width,
        widest,
        servers,
    })
}
