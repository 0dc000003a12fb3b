//! Nodes, worked out by hand. The gate of each puts the calls of its threads in an order.

use crate::devices::{
    MarkedLink, Marks, MasterLink, Page, PageWriter, Plan, PlannedGate, StillClock,
};
use arrayvec::ArrayVec;
use std::alloc::Global;
use std::sync::atomic::AtomicBool;
use std::sync::{Mutex, Wait};
use std::test::Fail;
use std::thread::Threads;
use tt_daemon::{Config, Daemon};
use tt_node::{Clocks, Limits, NodeEnd, run_node};
use tt_rounds::NodeFault;
use tt_session::Turns;
use tt_span::{Drift, Span};
use tt_stream::MemoryReader;

/// How a node is run.
#[derive(Drop)]
struct Setting<'a> {
    plan: Plan,
    rounds: u32,
    turns: u32,
    /// For each worker, what its client sends, and what its clock shows.
    sessions: &'a [(&'a str, u64)],
}

fn nothing_written() -> Page {
    Mutex::new(ArrayVec::new())
}

/// Runs a node of one source, whose master has the reference 1000 and no uncertainty, with the clocks of the daemon at
/// 0, drift 0, and at most one release step for each line; the sessions write on these pages.
fn run<R: Threads + Wait + std::time::Clock + Sync>(
    rt: &R,
    alloc: Global,
    setting: &Setting<'_>,
    pages: &[Page],
) -> Option<Result<NodeEnd, NodeFault>> {
    let drift = Drift::new(0)?;
    let config = Config::new(1, 0, drift, 1).ok()?;
    let marks = Marks::new();
    let mut clocks = Clocks {
        daemon: StillClock(0),
        workers: Vec::new(alloc),
    };
    let mut streams = Vec::new(alloc);
    for ((text, clock), page) in setting.sessions.iter().zip(pages) {
        let reader = MemoryReader::new(text.as_bytes(), 64, None);
        streams.push((reader, PageWriter { rt, page })).ok()?;
        clocks.workers.push(StillClock(*clock)).ok()?;
    }
    let link = MarkedLink {
        rt,
        marks: &marks,
        plan: setting.plan,
        link: MasterLink::new(alloc, 0, &[1000; 8], None),
    };
    let gate = PlannedGate {
        rt,
        marks: &marks,
        plan: setting.plan,
    };
    let limits = Limits {
        rounds: setting.rounds,
        turns: setting.turns,
        serve: Turns {
            reads: 10_000,
            waits: 1,
        },
        lease: Span::whole(),
    };
    let failed = AtomicBool::new(false);
    Some(run_node(
        rt,
        alloc,
        Daemon::new(0, &config, 1),
        link,
        clocks,
        streams,
        &gate,
        limits,
        &failed,
    ))
}

/// Whether this stands on the page.
fn says<R: Wait>(rt: &R, page: &Page, text: &str) -> bool {
    page.lock(rt).as_slice() == text.as_bytes()
}

#[test]
fn the_workers_run_at_once(rt: HostRuntime) -> Result<(), Fail> {
    for held in 0..2 {
        let pages = [nothing_written(), nothing_written()];
        let sessions = if held == 0 {
            [("commit 1 0\n", 0), ("now\n", 0)]
        } else {
            [("now\n", 0), ("commit 1 0\n", 0)]
        };
        let setting = Setting {
            plan: Plan::Holds(held),
            rounds: 1,
            turns: 1,
            sessions: &sessions,
        };
        let end = run(&rt, rt.alloc(), &setting, &pages).ok_or("a node")??;
        assert!(rt; end.workers.len() == 2);
        for (worker, page) in end.workers.iter().zip(&pages) {
            let lines = match worker.served {
                Ok(served) => served.lines,
                Err(_) => 0,
            };
            assert!(rt; lines == 1);
            assert!(rt; says(&rt, page, "refused 1504\n") == false);
        }
    }
    Ok(())
}

#[test]
fn the_daemon_runs_beside_its_workers(rt: HostRuntime) -> Result<(), Fail> {
    let pages = [nothing_written()];
    let setting = Setting {
        plan: Plan::BetweenRounds,
        rounds: 2,
        turns: 10_000,
        sessions: &[("now\nnow\n", 0)],
    };
    let end = run(&rt, rt.alloc(), &setting, &pages).ok_or("a node")??;
    assert!(rt;
        says(&rt, &pages[0], "refused 801\nnow 1000 1000\n"),
        "other replies"
    );
    assert!(rt; end.rounds.done == 2);
    let worker = end.workers.first().ok_or("a worker")?;
    let note = worker.notes.first().ok_or("a note")?;
    assert!(rt; (worker.notes.len(), note.before, note.after) == (1, 0, 0));
    assert!(rt; note.reading.earliest() == 1000);
    Ok(())
}

#[test]
fn the_workers_share_a_sequencer_and_a_book(rt: HostRuntime) -> Result<(), Fail> {
    let pages = [nothing_written(), nothing_written()];
    let setting = Setting {
        plan: Plan::InTurn,
        rounds: 2,
        turns: 4,
        sessions: &[
            ("commit 1 0\ncommit 1 0\ncommit 2 0\n", 0),
            ("commit 1 0\n", 10),
        ],
    };
    let _end = run(&rt, rt.alloc(), &setting, &pages).ok_or("a node")??;
    assert!(rt;
        says(
            &rt,
            &pages[0],
            "waiting 1 1000\ncommitted 1 1000\nwaiting 2 1011\n"
        ),
        "other replies"
    );
    assert!(rt; says(&rt, &pages[1], "waiting 1 1010\n"), "other replies");
    Ok(())
}
