//! What a master shows of itself.

ghost use Rattle.std.specs.Prelude.{◌≡◌, IfOk, map};
ghost use Rattle.tt_rounds.specs.Answering.{answers_in};
ghost use Rattle.ttd_masters.specs.Standing.{ShowsOpen, ShowsSealed, TellsNothing, answers_of as answers_by};

use std::alloc::{AllocError, Global};
use tt_rounds::{Link, SealedAnswers};
use tt_seal::Key;
use tt_status::{KeyAnswers, MasterStatus, ServerStatus, UNANSWERED};

/// What a master tells of its turns and of its servers.
#[derive(Drop)]
pub(crate) struct Told {
    /// How many packets it has not answered, for the reason of each place.
    pub(crate) unanswered: [u64; UNANSWERED],
    /// The width of the last answer's span, in nanoseconds.
    pub(crate) width: Option<u64>,
    /// The greatest width of an answer's span since the status before, in nanoseconds.
    pub(crate) widest: Option<u64>,
    /// What it knows of each of its servers, in their order.
    pub(crate) servers: Vec<ServerStatus>,
}

impl Told {
    /// No turn was taken, and there are no servers.
    pub(crate) fn nothing(alloc: Global) -> Told
        ensures { TellsNothing result }
    {
        Told {
            unanswered: [0; UNANSWERED],
            width: None,
            widest: None,
            servers: Vec::new(alloc),
        }
    }
}

/// The numbers of these keys, in their order.
pub(crate) fn numbers_of(alloc: Global, keys: &[Key]) -> Result<Vec<u32>, AllocError>
    ensures { IfOk result (λ numbers. numbers.items ≡ map (λ key. key.number) keys.now) }
{
    let mut numbers = Vec::new(alloc);
    'keys: for key in keys {
        numbers.push(key.number())?;
    }
    Ok(numbers)
}

/// How many answers a link sent under each of the keys with these numbers.
fn answers_of<L: Link>(
    alloc: Global,
    numbers: &[u32],
    link: &SealedAnswers<L>,
) -> Result<Vec<KeyAnswers>, AllocError>
    ensures { IfOk result (λ all. all.items ≡ answers_by link.now.counts.items numbers.now) }
{
    let mut all = Vec::new(alloc);
    'numbers: for number in numbers {
        let key = *number;
        let answers = link.answered(key);
        all.push(KeyAnswers { key, answers })?;
    }
    Ok(all)
}

/// The status of the master that is this source, which answers sealed polls over this link. Its keys have these numbers,
/// its file of keys was `refused` so often, and of its turns and servers it tells this.
pub(crate) fn sealed_status<L: Link>(
    alloc: Global,
    source: u64,
    numbers: &[u32],
    refused: u64,
    link: &SealedAnswers<L>,
    told: Told,
) -> Result<MasterStatus, AllocError>
    ensures { IfOk result (ShowsSealed source numbers.now refused link.now.counts.items link.now.dropped told) }
{
    let sealed = answers_of(alloc, numbers, link)?;
    let dropped = link.dropped();
    let unanswered = told.unanswered;
    Ok(MasterStatus {
        source,
        keys: numbers.len() as u64,
        keys_refused: refused,
        sealed,
        unsealed: 0,
        dropped,
        unanswered,
        width: told.width,
        widest: told.widest,
        servers: told.servers,
    })
}

/// The status of the master that is this source, which has answered so many open polls, and tells this of its turns and
/// servers.
pub(crate) fn open_status(alloc: Global, source: u64, answers: u64, told: Told) -> MasterStatus
    ensures { ShowsOpen source answers told result }
{
    let unanswered = told.unanswered;
    MasterStatus {
        source,
        keys: 0,
        keys_refused: 0,
        sealed: Vec::new(alloc),
        unsealed: answers,
        dropped: [0; 3],
        unanswered,
        width: told.width,
        widest: told.widest,
        servers: told.servers,
    }
}
