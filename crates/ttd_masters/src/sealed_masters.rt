//! A master that answers sealed polls.

ghost use Rattle.std.specs.Prelude.{◌≡◌, ◌+◌, ◌-◌, ◌^◌, min};

use crate::faults::StartFault;
use crate::key_files::{KeyFile, line_in};
use crate::links::AnsweringLink;
use crate::masters::{MasterPlan, look};
use crate::pauses::Looks;
use crate::players::{Player, take_turn};
use crate::standing::{Told, numbers_of, sealed_status};
use crate::telling::told_by;
use std::random::RandomSource;
use std::sync::Wait;
use std::time::Clock as SystemClock;
use tt_host::Host;
use tt_keys::KeysFault;
use tt_master::Silence;
use tt_report::Reporter;
use tt_rounds::SealedAnswers;
use tt_seal::Key;
use tt_status::LogEvent;

/// A link to the machines whose keys a master has, the file of these keys, and their numbers.
#[derive(Drop)]
pub(crate) struct Sealed<'a> {
    link: SealedAnswers<AnsweringLink>,
    file: KeyFile<'a>,
    numbers: Vec<u32>,
    /// How many packets had not opened at the last look.
    unopened: u64,
    /// How often the file of keys was refused.
    refused: u64,
}

impl<'a> Sealed<'a> {
    /// The link under the keys of the file.
    pub(crate) fn new<H: AllocGlobal>(
        rt: &H,
        link: AnsweringLink,
        file: KeyFile<'a>,
        keys: Vec<Key>,
    ) -> Result<Self, StartFault> {
        let numbers = numbers_of(rt.alloc(), &keys)?;
        let link = SealedAnswers::new(rt.alloc(), link, keys)?;
        Ok(Sealed {
            link,
            file,
            numbers,
            unopened: 0,
            refused: 0,
        })
    }

    /// Looks at the file, and takes its keys if it has another text than before. If they are refused, the keys stay. Either is
    /// logged.
    fn look<H: Host + Wait + RandomSource>(&mut self, rt: &H, reporter: &Reporter) {
        let event = match self.file.look(rt, rt.alloc()) {
            Ok(None) => return,
            Ok(Some(keys)) => self.take(rt, keys),
            Err(fault) => self.refuse(fault),
        };
        reporter.log(rt, event)
    }

    /// Logs how many packets did not open so far, where there are more than at the look before.
    fn tell_unopened<H: Wait + SystemClock>(&mut self, rt: &H, reporter: &Reporter) {
        let [length, unknown, wrong] = self.link.dropped();
        let count = length.saturating_add(unknown).saturating_add(wrong);
        if self.unopened < count {
            self.unopened = count;
            reporter.log(rt, LogEvent::PollsUnopened { count });
        }
    }

    /// Shows its status, and why it answers no poll, if it does not; if there is memory for that.
    fn show<H: Wait + SystemClock + AllocGlobal>(
        &self,
        rt: &H,
        reporter: &Reporter,
        source: u64,
        told: Told,
        silence: Option<Silence>,
    ) {
        let alloc = rt.alloc();
        let (numbers, refused) = (&self.numbers, self.refused);
        if let Ok(status) = sealed_status(alloc, source, numbers, refused, &self.link, told) {
            reporter.show_master(rt, alloc, status, silence)
        }
    }

    /// Takes these keys, if there is memory for them. Answers what is logged.
    fn take<H: AllocGlobal>(&mut self, rt: &H, keys: Vec<Key>) -> LogEvent {
        let alloc = rt.alloc();
        let count = keys.len() as u64;
        let Ok(numbers) = numbers_of(alloc, &keys) else {
            self.file.forget();
            return self.refuse(KeysFault::Memory);
        };
        if self.link.set_keys(alloc, keys).is_err() {
            self.file.forget();
            return self.refuse(KeysFault::Memory);
        }
        self.numbers = numbers;
        LogEvent::KeysRead { keys: count }
    }

    /// Counts that the file of keys was refused. Answers what is logged.
    fn refuse(&mut self, fault: KeysFault) -> LogEvent
        ensures counted { self.new.refused ≡ min (self.old.refused + 1) (2 ^ 64 - 1) }
    {
        self.refused = self.refused.saturating_add(1);
        refused(fault)
    }
}

/// What is logged where a file of keys is refused.
fn refused(fault: KeysFault) -> LogEvent {
    LogEvent::KeysRefused {
        number: u64::from(fault.number()),
        line: line_in(fault),
    }
}

/// Answers sealed polls, and never ends. About once a second it looks at its file of keys, logs that packets did not open
/// and, if there is a status file or an address for pages, shows its status.
pub(crate) fn answer_sealed<H: Host + Wait + RandomSource>(
    rt: &H,
    reporter: &Reporter,
    plan: &MasterPlan<'_>,
    sealed: Sealed<'_>,
    player: &mut Player<'_, H>,
) -> Result<(), StartFault> {
    let mut sealed = sealed;
    let mut looks = Looks::new(rt);
    for _ in rt.forever() {
        take_turn(rt, reporter, &mut sealed.link, player);
        if looks.is_due() {
            sealed.look(rt, reporter);
            sealed.tell_unopened(rt, reporter);
            if plan.shows_itself() {
                let silence = look(rt, reporter, plan, player);
                if let Ok(told) = told_by(rt, player) {
                    sealed.show(rt, reporter, plan.source, told, silence);
                }
            }
        }
    }
    unreachable!()
}
