//! The command `live` over devices in memory, with a run on this computer.

use tt_stream::{MemoryReader, MemoryWriter};
use ttd_commands::{Status, live_with};

/// A machine of three sources, one of which may be false and is, and two workers.
const TWO_SESSIONS: &str = r#"
[[machine]]
sources = 3
faulty = 1
workers = 2

[live]
base = 1000000000000
rounds = 50
turns = 20
sessions = [["now"], ["now", "commit 1 0"]]

[[live.masters]]
uncertainty = 1000
acts = ["honest"]

[[live.masters]]
uncertainty = 1000
acts = ["honest"]

[[live.masters]]
uncertainty = 1000
acts = ["ahead 1000000000"]
"#;

#[test]
fn two_sessions_read_the_time(rt: HostRuntime) {
    let mut reader = MemoryReader::new(TWO_SESSIONS.as_bytes(), 4096, None);
    let mut writer = MemoryWriter::new(rt.alloc(), 4096, None);
    let status = live_with(&rt, rt.alloc(), &["live"], &mut reader, &mut writer);
    assert!(rt; status == Status::Fine);
    assert!(rt; writer.taken() == b"readings 2\nwrong 0\n".as_slice());
}

#[test]
fn a_reader_and_a_writer_fail(rt: HostRuntime) {
    let alloc = rt.alloc();
    let mut writer = MemoryWriter::new(alloc, 4096, None);
    let mut reader = MemoryReader::new(TWO_SESSIONS.as_bytes(), 7, Some(3));
    let status = live_with(&rt, alloc, &["live"], &mut reader, &mut writer);
    assert!(rt; status == Status::Device);
    assert!(rt; writer.taken() == b"refused 1604\n".as_slice());
    let mut writer = MemoryWriter::new(alloc, 5, Some(3));
    let mut reader = MemoryReader::new(TWO_SESSIONS.as_bytes(), 4096, None);
    let status = live_with(&rt, alloc, &["live"], &mut reader, &mut writer);
    assert!(rt; status == Status::Device);
    assert!(rt; writer.taken() == b"readings 2".as_slice());
}
