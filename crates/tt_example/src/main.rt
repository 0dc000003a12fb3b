//! A first program on the time service. One machine of a database polls three time sources, and one of them is wrong.
//! Then the machine makes one commit and reads one snapshot, in two threads. docs/EMBEDDING.md says for each call what
//! it refuses and what to choose.
#![tactic(auto)]

ghost use Rattle.std.specs.Prelude.{◌≡◌, ◌≤◌, IfOk};
ghost use Rattle.std.specs.Thread.{IsSync};

mod clocks;

use anyhow::{Context, Result, bail};
use clocks::SteppedClock;
use std::alloc::Global;
use std::io::Print;
use std::sync::Wait;
use std::thread::{Threads, join};
use tt_daemon::{Config, Daemon, Fused};
use tt_fuse::suspects;
use tt_master::{Act, Master, MemoryReference};
use tt_publish::{Clock, Reading, Teller, Watch, open};
use tt_span::{Drift, Span};
use tt_stamp::{Book, Id, Receipt, Seat, Sequencer, begin_step, release_step};

fn main(rt: HostRuntime) -> Result<()> {
    // The settings: a clock that is off by at most 200 parts per million, three sources, at most one of them wrong, and
    // two worker threads.
    let drift = Drift::new(200).context("more than 100,000 parts per million")?;
    let config = Config::new(3, 1, drift, 2)?;
    // Machine 0 in its first life. A database keeps the number of the life in durable storage, and raises it at each
    // start before the first poll.
    let daemon = Daemon::new(0, &config, 1);
    let (mut teller, watches) = open(&rt, rt.alloc(), drift, 2)?;
    let ran = run(&rt, rt.alloc(), daemon, &mut teller, watches);
    // A teller has to be closed, also if something failed.
    teller.close(&rt);
    ran
}

fn run<R: Threads + Wait + Sync + Print>(
    rt: &R,
    alloc: Global,
    mut daemon: Daemon,
    teller: &mut Teller,
    mut watches: Vec<Watch>,
) -> Result<()> {
    // All threads that commit share the sequencer and the book. Each has a seat of its own for the sequencer. If there
    // are several such threads, the book is behind a lock.
    let (sequencer, mut seats) = Sequencer::open(alloc, 1)?;
    let book = Book::new(alloc);

    // The daemon's round. A database makes a round every few seconds, in a thread of its own, while the workers go on.
    let fused = round(&mut daemon)?;
    let (span, clock) = (fused.span(), fused.clock());
    println!(rt; "fused {} to {} at clock {clock}", span.lo(), span.hi())?;
    for source in suspects(fused.spans(), &span) {
        println!(rt; "source {source} is suspect")?;
    }
    teller.publish(rt, fused)?;

    // Two workers, each in a thread of its own, with a watch and a clock of its own.
    let (Some(seat), Some(first), Some(second)) = (seats.pop(), watches.pop(), watches.pop()) else {
        bail!("a seat or a watch is missing");
    };
    let id = Id {
        session: 0,
        number: 1,
    };
    let (committed, read) = join(
        rt,
        || -> Result<Receipt>
            requires { IsSync R.row × (seat.table ≡ sequencer) }
        { commit(rt, id, &sequencer, seat, book, first) },
        || snapshot(second),
    );
    let (receipt, reading) = (committed?, read?);
    println!(rt; "released: {} is below {}", receipt.stamp, receipt.earliest)?;
    println!(rt; "snapshot at {}", reading.latest())?;
    Ok(())
}

/// One round: polls each source, takes its answer, and fuses the answers.
fn round(daemon: &mut Daemon) -> Result<Fused> {
    let mut clock = SteppedClock::at(0);
    // The answers of sources 0 and 1 hold the true time. Source 2 is a millisecond ahead.
    ask(daemon, &mut clock, 0, 1_000_000_500, Act::Honest)?;
    ask(daemon, &mut clock, 1, 1_000_001_500, Act::Honest)?;
    ask(daemon, &mut clock, 2, 1_000_002_500, Act::Ahead(1_000_000))?;
    Ok(daemon.fuse(clock.read()?)?)
}

/// Polls one source, and takes its answer. The source does this act at this time. In a database the source is another
/// machine, and the packets go over a socket.
fn ask(daemon: &mut Daemon, clock: &mut SteppedClock, source: u8, time: u64, act: Act) -> Result<()>
    requires { source ≤ 15 }
{
    let times = [time];
    let mut master = Master::new(source, 500, MemoryReference::new(&times, None));
    let request = daemon.poll(source, clock.read()?)?;
    let answer = master.play2(act, &request)?;
    clock.sleep(1_000);
    if let Some(bytes) = answer {
        daemon.take(source, clock.read()?, &bytes)?;
    }
    Ok(())
}

/// One commit, from its arrival to its receipt.
fn commit<R: Wait + Print>(
    rt: &R,
    id: Id,
    sequencer: &Sequencer,
    mut seat: Seat,
    mut book: Book,
    mut watch: Watch,
) -> Result<Receipt>
    requires { seat.table ≡ sequencer.now }
    ensures receipt { IfOk result (λ receipt. receipt.id ≡ id) }
{
    let mut clock = SteppedClock::at(5_000);
    // The commit has arrived, and its locks are held. So stamp it. No participant asks for a floor, and the leader's
    // lease is the whole of time.
    let stamp = begin_step(
        rt,
        sequencer,
        &mut seat,
        &mut watch,
        &mut clock,
        0,
        &Span::whole(),
    )?;
    book.queue(id, stamp)?;
    // Here the stamp goes to the log, and replication begins.
    println!(rt; "stamped {stamp}")?;
    // Commit wait: nobody may see the commit before its stamp has surely passed. A database repeats this until it has.
    for _ in 0..10 {
        release_step(&mut book, &mut watch, &mut clock)?;
        if let Some(receipt) = book.is_released(id) {
            // Now answer the client, apply the commit, and release its locks.
            return Ok(receipt);
        }
        let earliest = watch.now(&mut clock)?.earliest();
        let pause = stamp.saturating_sub(earliest).saturating_add(1);
        println!(rt; "pending: the time may still be {earliest}, so sleep {pause}")?;
        clock.sleep(pause);
    }
    bail!("the commit is still pending");
}

/// One snapshot read. It reads at the latest that the time may be, and so sees each commit that was released before the
/// request.
fn snapshot(mut watch: Watch) -> Result<Reading> {
    let mut clock = SteppedClock::at(9_000);
    Ok(watch.now(&mut clock)?)
}
