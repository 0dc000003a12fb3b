//! Values worked out by hand, and readings while another thread publishes.

ghost use Rattle.std.specs.Prelude.{◌≡◌, IfSome};

use std::alloc::Global;
use std::sync::Wait;
use std::test::Fail;
use std::thread::{Threads, join};
use tt_daemon::Fused;
use tt_publish::{
    Clock, ClockFault, MemoryClock, PublishFault, ReadAt, ReadFault, Reading, Teller, Watch, open,
};
use tt_span::{Drift, MAX_TIME, Span};

// A fusion of one source.
fn fused(clock: u64, lo: u64, hi: u64) -> Option<Fused> {
    let span = Span::new(lo, hi).ok()?;
    Fused::make(clock, &[span], 0).ok()
}

// A teller and two watches of it.
fn opened<R: Wait>(rt: &R, alloc: Global, ppm: u32) -> Option<(Teller, Watch, Watch)>
    ensures { IfSome result (λ all. (all.1.source ≡ all.0.source) × (all.2.source ≡ all.0.source)) }
{
    let drift = Drift::new(ppm)?;
    let Ok((teller, mut watches)) = open(rt, alloc, drift, 2) else {
        return None;
    };
    let second = watches.pop();
    let first = watches.pop();
    match (first, second) {
        (Some(first), Some(second)) => Some((teller, first, second)),
        _ => {
            teller.close(rt);
            None
        }
    }
}

fn ends(answer: Result<Reading, ReadFault>) -> Result<(u64, u64), u16> {
    match answer {
        Ok(reading) => Ok((reading.earliest(), reading.latest())),
        Err(fault) => Err(fault.number()),
    }
}

#[test]
fn a_time_has_passed_below_the_reading_and_is_to_come_above_it(
    rt: HostRuntime,
) -> Result<(), Fail> {
    let reading = Reading::of(Span::new(200, 300)?);
    assert!(rt; (reading.after(199), reading.after(200)) == (true, false));
    assert!(rt; (reading.before(300), reading.before(301)) == (false, true));
    let last = fused(0, MAX_TIME - 10, MAX_TIME).ok_or("a fusion")?;
    let drift = Drift::new(0).ok_or("a drift")?;
    assert!(rt; ends(last.read_at(drift, 100)) == Ok((MAX_TIME, MAX_TIME)));
    Ok(())
}

// Publishes three fusions. The second one is newer than the first one, and the third one too old. Gives whether it was so
// answered.
fn publish_three<R: Wait>(rt: &R, teller: &mut Teller) -> Result<bool, Fail> {
    let chain = [Span::new(0, 10)?, Span::new(5, 15)?, Span::new(12, 20)?];
    let older = teller.publish(rt, Fused::make(1000, &chain, 1)?);
    let newer = teller.publish(rt, fused(2000, 1003, 1020).ok_or("a fusion")?);
    let too_old = teller.publish(rt, fused(1999, 1003, 1020).ok_or("a fusion")?);
    Ok((older, newer, too_old) == (Ok(()), Ok(()), Err(PublishFault::ClockBack)))
}

// Whether the watch gives these readings, one after the other.
fn reads(watch: &mut Watch, clock: &mut MemoryClock, readings: &[Result<(u64, u64), u16>]) -> bool {
    for reading in readings {
        if ends(watch.now(clock)) != *reading {
            return false;
        }
    }
    true
}

// Whether a watch reads nothing at first, and both watches the last of three fusions then, as it ages.
fn is_last_read<R: Wait>(rt: &R, alloc: Global) -> Result<bool, Fail> {
    let mut clock = MemoryClock::new(&[2000, 7000, 1999, 2000], None);
    let wanted = [Ok((1003, 1020)), Ok((6002, 6021)), Err(802)];
    let (mut teller, mut first, mut second) = opened(rt, alloc, 200).ok_or("watches")?;
    let nothing = reads(&mut second, &mut clock, &[Err(801)]);
    let published = publish_three(rt, &mut teller);
    let one = reads(&mut first, &mut clock, &wanted);
    let two = reads(&mut second, &mut clock, &[Ok((1003, 1020))]);
    teller.close(rt);
    let published = published?;
    Ok(nothing && published && one && two)
}

#[test]
fn the_last_fusion_is_read(rt: HostRuntime) -> Result<(), Fail> {
    assert!(rt; is_last_read(&rt, rt.alloc())?);
    Ok(())
}

// A clock that shows the same at each call, and publishes a fusion at its next one.
#[derive(Drop)]
struct PublishingClock<'a, R: Wait> {
    rt: &'a R,
    teller: &'a mut Teller,
    next: Option<Fused>,
    time: u64,
}

impl<'a, R: Wait> Clock for PublishingClock<'a, R> {
    ghost gives = { λ before given after. Unit {0} };

    ghost failed = { λ clock. 0 };

    fn read(&mut self) -> Result<u64, ClockFault> {
        if let Some(fusion) = self.next.take() {
            let _ = self.teller.publish(self.rt, fusion);
        }
        Ok(self.time)
    }

    fn failures(&self) -> u64 {
        0
    }
}

#[test]
fn a_watch_looks_before_it_reads_the_clock(rt: HostRuntime) -> Result<(), Fail> {
    let first = fused(5, 40, 70).ok_or("a fusion")?;
    let second = fused(5, 50, 60).ok_or("a fusion")?;
    let (mut teller, mut watch, _other) = opened(&rt, rt.alloc(), 0).ok_or("watches")?;
    assert!(rt; teller.publish(&rt, first) == Ok(()));
    let mut clock = PublishingClock {
        rt: &rt,
        teller: &mut teller,
        next: Some(second),
        time: 5,
    };
    // The second fusion is published while the clock is read, so this call has not seen it.
    assert!(rt; ends(watch.now(&mut clock)) == Ok((40, 70)));
    assert!(rt; ends(watch.now(&mut clock)) == Ok((50, 60)));
    teller.close(&rt);
    Ok(())
}

// Publishes [k, k] for each k from `start` up to the one before `end`. Gives the last of them that was published.
fn publish_all<R: Wait>(rt: &R, teller: &mut Teller, start: u64, end: u64) -> u64
    ensures { teller.new.source ≡ teller.old.source }
{
    let mut published = 0;
    for k in start..end {
        if let Some(fusion) = fused(0, k, k) {
            if teller.publish(rt, fusion).is_ok() {
                published = k;
            }
        }
    }
    published
}

// Reads a thousand times at clock 0: whether the earliest of each reading is at least `least`, never falls, and is
// at most 100. Refusal 801 counts as 0, so there is none where `least` is above 0, nor after the first reading.
fn read_on(mut watch: Watch, mut least: u64) -> (Watch, bool) {
    let mut clock = MemoryClock::new(&[0; 1000], None);
    let mut rises = true;
    for _ in 0..1000 {
        let read = match ends(watch.now(&mut clock)) {
            Ok((earliest, _)) => earliest,
            Err(fault) => if fault == 801 { 0 } else { u64::MAX },
        };
        rises = rises && least <= read && read <= 100;
        least = read;
    }
    (watch, rises)
}

// Publishes [k, k] for each k from `start` to 100, while two other threads read on: the first watch from the least
// that is given, the second from 0.
fn read_and_publish<R: Threads + Wait + Sync>(
    rt: &R,
    teller: &mut Teller,
    start: u64,
    (first, least): (Watch, u64),
    second: Watch,
) -> (u64, ((Watch, bool), (Watch, bool))) {
    join(
        rt,
        || publish_all(rt, teller, start, 101),
        || join(rt, || read_on(first, least), || read_on(second, 0)),
    )
}

// A teller whose first watch is told of the fusions before `next`, while two other threads read on from then. Gives
// whether all is published, the readings rise, and both watches then read the last fusion, also once the teller is closed.
fn raced<R: Threads + Wait + Sync>(
    rt: &R,
    alloc: Global,
    told: u64,
    next: u64,
) -> Result<bool, Fail> {
    let mut clock = MemoryClock::new(&[0; 4], None);
    let last = [Ok((100, 100))];
    let (mut teller, mut first, second) = opened(rt, alloc, 0).ok_or("watches")?;
    publish_all(rt, &mut teller, 1, next);
    first.learn(&teller.tell());
    let (published, read) = read_and_publish(rt, &mut teller, next, (first, told), second);
    let ((mut first, first_rises), (mut second, second_rises)) = read;
    let rises = published == 100 && first_rises && second_rises;
    let is_read = reads(&mut first, &mut clock, &last) && reads(&mut second, &mut clock, &last);
    teller.close(rt);
    let stays = reads(&mut first, &mut clock, &last) && reads(&mut second, &mut clock, &last);
    Ok(rises && is_read && stays)
}

#[test]
fn readings_in_threads_rise(rt: HostRuntime) -> Result<(), Fail> {
    // The first watch is told of nothing, and then of the first fifty.
    for (told, next) in [(0, 1), (50, 51)] {
        assert!(rt; raced(&rt, rt.alloc(), told, next)?);
    }
    Ok(())
}
