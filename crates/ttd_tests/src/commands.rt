//! The whole program over devices in memory, with answers worked out by hand. More of its answers are in `tests`.

use std::alloc::Global;
use std::test::Fail;
use tt_scenes::{ANY_MAY_LIE, COMMIT_WAIT, LAST_TIME, WORKED_RUNS};
use tt_stream::{MemoryReader, MemoryWriter};
use ttd_commands::{Status, main_with};

const AGE: [&str; 7] = [
    "age",
    "--sent",
    "500",
    "--got",
    "900",
    "--clock",
    "30000000900",
];

// The answer of source 1 to machine 0 under nonce 1: the true time lies from 1000000000 to 1000001000.
const ANSWER: &str = "54545031020001000000000000000001000000003b9aca00000000003b9acde8";

// The same in TTP2, in the machine's first life.
const ANSWER2: &str =
    "545450320200010000000000000000010000000000000001000000003b9aca00000000003b9acde8";

// Without its last byte.
const SHORT: &str = "54545031020001000000000000000001000000003b9aca00000000003b9acd";

// Runs the program over memory: how it ends, and what it writes.
fn answer(alloc: Global, words: &[&str], input: &str) -> (Status, MemoryWriter) {
    let mut reader = MemoryReader::new(input.as_bytes(), 4096, None);
    let mut writer = MemoryWriter::new(alloc, 4096, None);
    let status = main_with(alloc, words, &mut reader, &mut writer);
    (status, writer)
}

// Whether this is how it ends and what it writes.
fn writes(alloc: Global, words: &[&str], input: &str, status: Status, text: &str) -> bool {
    let (ended, writer) = answer(alloc, words, input);
    ended == status && writer.taken() == text.as_bytes()
}

#[test]
fn ages_an_answer(rt: HostRuntime) {
    let back = ["age", "--sent", "500", "--got", "900", "--clock", "899"];
    let aged = "aged 30994000000 31006001401\n";
    for (words, input, status, text) in [
        (AGE, ANSWER, Status::Fine, aged),
        (AGE, ANSWER2, Status::Fine, aged),
        (AGE, SHORT, Status::Bad, "refused 201\n"),
        (back, ANSWER, Status::Bad, "refused 402\n"),
    ] {
        assert!(rt; writes(rt.alloc(), &words, input, status, text));
    }
}

// Three spans of which one may be wrong.
const SPANS: &str = "faulty 1\nspan 0 10\nspan 5 15\nspan 12 20\n";

#[test]
fn fuses_and_checks_three_spans(rt: HostRuntime) -> Result<(), Fail> {
    for (word, certificate, status, text) in [
        (
            "fuse",
            "",
            Status::Fine,
            "claim 5 15\nleft 0 1\nright 1 2\nbelow 0 4 1\nabove 16 20 1\nabove 21 4000000000000000000 0\nsuspects none\n",
        ),
        (
            "check",
            "claim 5 15\nleft 0 1\nright 1 2\nbelow 0 4 1\nabove 16 20 1\nabove 21 4000000000000000000 0\n",
            Status::Fine,
            "valid\n",
        ),
        (
            "check",
            "claim 5 15\nleft 0 0\nright 1 2\nbelow 0 4 1\nabove 16 20 1\nabove 21 4000000000000000000 0\n",
            Status::Bad,
            "refused 601\n",
        ),
        (
            "check",
            "claim 5 15\nleft 0 1\nright 0 1\nbelow 0 4 1\nabove 16 20 1\nabove 21 4000000000000000000 0\n",
            Status::Bad,
            "refused 602\n",
        ),
        (
            "check",
            "claim 5 15\nleft 0 1\nright 1 2\nabove 16 20 1\nabove 21 4000000000000000000 0\n",
            Status::Bad,
            "refused 603\n",
        ),
        (
            "check",
            "claim 6 15\nleft 0 1\nright 1 2\nbelow 0 5 2\nabove 16 20 1\nabove 21 4000000000000000000 0\n",
            Status::Bad,
            "refused 604\n",
        ),
        (
            "check",
            "claim 5 15\nleft 0 1\nright 1 2\nbelow 0 4 1\nabove 16 20 0\nabove 21 4000000000000000000 0\n",
            Status::Bad,
            "refused 605\n",
        ),
    ] {
        let input = format!(in rt.alloc(); "{SPANS}{certificate}")?;
        assert!(rt;
            writes(rt.alloc(), &[word], input.as_str(), status, text),
            "{text}"
        );
    }
    Ok(())
}

#[test]
fn worked_runs_reply_and_report(rt: HostRuntime) {
    for worked in WORKED_RUNS {
        let status = if worked.report.contains("broken") {
            Status::Broken
        } else {
            Status::Fine
        };
        assert!(rt; writes(rt.alloc(), &["run"], worked.script, status, worked.report));
        let (_status, traced) = answer(rt.alloc(), &["trace"], worked.script);
        assert!(rt; traced.taken().starts_with(worked.trace.as_bytes()));
    }
    for (input, text) in [("", "refused 1302\n"), ("x =", "refused 1301\n")] {
        assert!(rt; writes(rt.alloc(), &["run"], input, Status::Bad, text));
    }
}

// The twins of the last reading of any that may lie.
const LOW: &str =
    "send 5 0 0 1000\nsend 5 0 1 1000\nsend 5 0 2 1000\nanswer 5 0 0 10\nanswer 5 1 5 15\nanswer 5 2 12 20\ndeliver 5 3 1000\ndeliver 5 4 1000\ndeliver 5 5 1000\nfuse 5 0 1000\nread 5 0 0 1001 1\nread 5004 0 0 6000 1\nreading 5004 5016 truth 5004\n";

const HIGH: &str =
    "send 15 0 0 1000\nsend 15 0 1 1000\nsend 15 0 2 1000\nanswer 15 0 0 10\nanswer 15 1 5 15\nanswer 15 2 12 20\ndeliver 15 3 1000\ndeliver 15 4 1000\ndeliver 15 5 1000\nfuse 15 0 1000\nread 17 0 0 1001 1\nread 5016 0 0 6000 1\nreading 5004 5016 truth 5016\n";

// Of commit wait, the low one of the reading that released, and the high one of the first reading.
const RELEASED_LOW: &str =
    "send 100 0 0 0\nanswer 100 0 100 200\ndeliver 100 1 0\nfuse 100 0 0\nread 100 0 0 0 1\nread 200 0 0 100 1\nread 201 0 0 101 1\nreading 201 301 truth 201\n";

const FIRST_HIGH: &str =
    "send 200 0 0 0\nanswer 200 0 100 200\ndeliver 200 1 0\nfuse 200 0 0\nread 200 0 0 0 1\nreading 100 200 truth 200\n";

#[test]
fn gives_the_twins_of_a_reading(rt: HostRuntime) {
    for (input, event, side, text) in [
        (ANY_MAY_LIE.script, "11", "low", LOW),
        (ANY_MAY_LIE.script, "11", "high", HIGH),
        (COMMIT_WAIT.script, "10", "low", RELEASED_LOW),
        (COMMIT_WAIT.script, "5", "high", FIRST_HIGH),
        (ANY_MAY_LIE.script, "9", "low", "refused 1401\n"),
        (LAST_TIME.script, "4", "low", "refused 1402\n"),
        (LAST_TIME.script, "4", "high", "refused 1402\n"),
    ] {
        let status = if text.starts_with("refused") {
            Status::Bad
        } else {
            Status::Fine
        };
        let words = ["twin", "--event", event, "--side", side];
        assert!(rt; writes(rt.alloc(), &words, input, status, text));
    }
}

#[test]
fn live_is_no_command_without_threads(rt: HostRuntime) {
    // A reader that would fail is not asked.
    let mut reader = MemoryReader::new(b"zz", 7, Some(1));
    let mut writer = MemoryWriter::new(rt.alloc(), 64, None);
    assert!(rt; main_with(rt.alloc(), &["live"], &mut reader, &mut writer) == Status::Bad);
    assert!(rt; writer.taken() == b"refused 1601\n".as_slice());
}

#[test]
fn a_writer_fails(rt: HostRuntime) {
    // It takes the whole answer by its first call, and fails at its flush.
    let mut reader = MemoryReader::new(ANSWER.as_bytes(), 4096, None);
    let mut writer = MemoryWriter::new(rt.alloc(), 4096, Some(2));
    assert!(rt; main_with(rt.alloc(), &AGE, &mut reader, &mut writer) == Status::Device);
    assert!(rt; writer.taken() == b"aged 30994000000 31006001401\n".as_slice());
}
