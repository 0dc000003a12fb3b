//! Runs that were worked out by hand: each as a script, with its trace and its report.

/// A run with the texts that belong to it.
#[derive(Clone, Copy)]
pub struct WorkedRun {
    /// The script, in the format of docs/FORMATS.md.
    pub script: &'static str,
    /// A line for each event: its number, the event, an arrow, and its reply.
    pub trace: &'static str,
    /// The report on the run.
    pub report: &'static str,
}

/// All worked runs.
pub const WORKED_RUNS: [WorkedRun; 10] = [
    COMMIT_WAIT,
    ONE_LIAR,
    TWO_LIARS,
    FORGED,
    REFUSED_EVENTS,
    ANY_MAY_LIE,
    DRIFT,
    RESTART,
    LEASE,
    LAST_TIME,
];

/// A commit of the first machine is released before a commit arrives at the second machine. The second commit has a
/// later stamp.
pub const COMMIT_WAIT: WorkedRun = WorkedRun {
    script: r#"event = [
  { do = "send", at = 150, machine = 0, source = 0, clock = 0 },
  { do = "answer", at = 150, packet = 0, lo = 100, hi = 200 },
  { do = "deliver", at = 150, packet = 1, clock = 0 },
  { do = "fuse", at = 150, machine = 0, clock = 0 },
  { do = "arrive", at = 150, machine = 0, worker = 0, session = 0, number = 1, floor = 0 },
  { do = "read", at = 150, machine = 0, worker = 0, clock = 0, publication = 1 },
  { do = "stamp", at = 150, machine = 0, worker = 0 },
  { do = "queue", at = 150, machine = 0, worker = 0 },
  { do = "read", at = 250, machine = 0, worker = 0, clock = 100, publication = 1 },
  { do = "release", at = 250, machine = 0, worker = 0 },
  { do = "read", at = 251, machine = 0, worker = 0, clock = 101, publication = 1 },
  { do = "release", at = 251, machine = 0, worker = 0 },
  { do = "send", at = 251, machine = 1, source = 0, clock = 0 },
  { do = "answer", at = 251, packet = 2, lo = 251, hi = 251 },
  { do = "deliver", at = 251, packet = 3, clock = 0 },
  { do = "fuse", at = 251, machine = 1, clock = 0 },
  { do = "arrive", at = 251, machine = 1, worker = 0, session = 0, number = 1, floor = 0 },
  { do = "read", at = 251, machine = 1, worker = 0, clock = 0, publication = 1 },
  { do = "stamp", at = 251, machine = 1, worker = 0 },
]

[[machine]]
sources = 1
faulty = 0
drift = 0
workers = 1

[[machine]]
sources = 1
faulty = 0
drift = 0
workers = 1
"#,
    trace: r#"0 send 150 0 0 0 -> Sent 0
1 answer 150 0 100 200 -> Put 1
2 deliver 150 1 0 -> Taken
3 fuse 150 0 0 -> Published 1 100 200
4 arrive 150 0 0 0 1 0 -> Arrived
5 read 150 0 0 0 1 -> Read 100 200
6 stamp 150 0 0 -> Stamped 200
7 queue 150 0 0 -> Queued
8 read 250 0 0 100 1 -> Read 200 300
9 release 250 0 0 -> Released
10 read 251 0 0 101 1 -> Read 201 301
11 release 251 0 0 -> Released 0 1 200 201
12 send 251 1 0 0 -> Sent 2
13 answer 251 2 251 251 -> Put 3
14 deliver 251 3 0 -> Taken
15 fuse 251 1 0 -> Published 1 251 251
16 arrive 251 1 0 0 1 0 -> Arrived
17 read 251 1 0 0 1 -> Read 251 251
18 stamp 251 1 0 -> Stamped 251
"#,
    report: r#"events 19
refused 0
fusions 2
readings 4
wrong 0
released 1
violations 0
premise kept
"#,
};

/// One of three sources is wrong about the time 50, and one may be wrong.
pub const ONE_LIAR: WorkedRun = WorkedRun {
    script: r#"event = [
  { do = "send", at = 50, machine = 0, source = 0, clock = 0 },
  { do = "send", at = 50, machine = 0, source = 1, clock = 0 },
  { do = "send", at = 50, machine = 0, source = 2, clock = 0 },
  { do = "answer", at = 50, packet = 0, lo = 40, hi = 60 },
  { do = "answer", at = 50, packet = 1, lo = 45, hi = 55 },
  { do = "answer", at = 50, packet = 2, lo = 100, hi = 105 },
  { do = "deliver", at = 50, packet = 3, clock = 0 },
  { do = "deliver", at = 50, packet = 4, clock = 0 },
  { do = "deliver", at = 50, packet = 5, clock = 0 },
  { do = "fuse", at = 50, machine = 0, clock = 0 },
  { do = "read", at = 50, machine = 0, worker = 0, clock = 0, publication = 1 },
]

[[machine]]
sources = 3
faulty = 1
drift = 200
workers = 1
"#,
    trace: r#"0 send 50 0 0 0 -> Sent 0
1 send 50 0 1 0 -> Sent 1
2 send 50 0 2 0 -> Sent 2
3 answer 50 0 40 60 -> Put 3
4 answer 50 1 45 55 -> Put 4
5 answer 50 2 100 105 -> Put 5
6 deliver 50 3 0 -> Taken
7 deliver 50 4 0 -> Taken
8 deliver 50 5 0 -> Taken
9 fuse 50 0 0 -> Published 1 45 55
10 read 50 0 0 0 1 -> Read 45 55
"#,
    report: r#"events 11
refused 0
fusions 1
readings 1
wrong 0
released 0
violations 0
suspect 0 1 2
premise kept
"#,
};

/// Two of three sources are wrong about the time 50, but only one may be wrong.
pub const TWO_LIARS: WorkedRun = WorkedRun {
    script: r#"event = [
  { do = "send", at = 50, machine = 0, source = 0, clock = 0 },
  { do = "send", at = 50, machine = 0, source = 1, clock = 0 },
  { do = "send", at = 50, machine = 0, source = 2, clock = 0 },
  { do = "answer", at = 50, packet = 0, lo = 40, hi = 60 },
  { do = "answer", at = 50, packet = 1, lo = 100, hi = 110 },
  { do = "answer", at = 50, packet = 2, lo = 100, hi = 105 },
  { do = "deliver", at = 50, packet = 3, clock = 0 },
  { do = "deliver", at = 50, packet = 4, clock = 0 },
  { do = "deliver", at = 50, packet = 5, clock = 0 },
  { do = "fuse", at = 50, machine = 0, clock = 0 },
  { do = "read", at = 50, machine = 0, worker = 0, clock = 0, publication = 1 },
]

[[machine]]
sources = 3
faulty = 1
drift = 200
workers = 1
"#,
    trace: r#"0 send 50 0 0 0 -> Sent 0
1 send 50 0 1 0 -> Sent 1
2 send 50 0 2 0 -> Sent 2
3 answer 50 0 40 60 -> Put 3
4 answer 50 1 100 110 -> Put 4
5 answer 50 2 100 105 -> Put 5
6 deliver 50 3 0 -> Taken
7 deliver 50 4 0 -> Taken
8 deliver 50 5 0 -> Taken
9 fuse 50 0 0 -> Published 1 100 105
10 read 50 0 0 0 1 -> Read 100 105 wrong
"#,
    report: r#"events 11
refused 0
fusions 1
readings 1
wrong 1
released 0
violations 0
suspect 0 1 0
premise broken 9 0 false
"#,
};

/// One of three answers is a byte that is not a valid message.
pub const FORGED: WorkedRun = WorkedRun {
    script: r#"event = [
  { do = "send", at = 50, machine = 0, source = 0, clock = 0 },
  { do = "send", at = 50, machine = 0, source = 1, clock = 0 },
  { do = "send", at = 50, machine = 0, source = 2, clock = 0 },
  { do = "answer", at = 50, packet = 0, lo = 40, hi = 60 },
  { do = "answer", at = 50, packet = 1, lo = 45, hi = 55 },
  { do = "forge", at = 50, machine = 0, source = 2, bytes = "ff" },
  { do = "deliver", at = 50, packet = 3, clock = 0 },
  { do = "deliver", at = 50, packet = 4, clock = 0 },
  { do = "deliver", at = 50, packet = 5, clock = 0 },
  { do = "fuse", at = 50, machine = 0, clock = 0 },
  { do = "read", at = 50, machine = 0, worker = 0, clock = 0, publication = 1 },
]

[[machine]]
sources = 3
faulty = 1
drift = 200
workers = 1
"#,
    trace: r#"0 send 50 0 0 0 -> Sent 0
1 send 50 0 1 0 -> Sent 1
2 send 50 0 2 0 -> Sent 2
3 answer 50 0 40 60 -> Put 3
4 answer 50 1 45 55 -> Put 4
5 forge 50 0 2 ff -> Put 5
6 deliver 50 3 0 -> Taken
7 deliver 50 4 0 -> Taken
8 deliver 50 5 0 -> Refused 404
9 fuse 50 0 0 -> Published 1 40 60
10 read 50 0 0 0 1 -> Read 40 60
"#,
    report: r#"events 11
refused 1
fusions 1
readings 1
wrong 0
released 0
violations 0
premise kept
"#,
};

/// The run [`ONE_LIAR`], and then six more events. Each of the six is refused for a different reason.
pub const REFUSED_EVENTS: WorkedRun = WorkedRun {
    script: r#"event = [
  { do = "send", at = 50, machine = 0, source = 0, clock = 0 },
  { do = "send", at = 50, machine = 0, source = 1, clock = 0 },
  { do = "send", at = 50, machine = 0, source = 2, clock = 0 },
  { do = "answer", at = 50, packet = 0, lo = 40, hi = 60 },
  { do = "answer", at = 50, packet = 1, lo = 45, hi = 55 },
  { do = "answer", at = 50, packet = 2, lo = 100, hi = 105 },
  { do = "deliver", at = 50, packet = 3, clock = 0 },
  { do = "deliver", at = 50, packet = 4, clock = 0 },
  { do = "deliver", at = 50, packet = 5, clock = 0 },
  { do = "fuse", at = 50, machine = 0, clock = 0 },
  { do = "read", at = 50, machine = 0, worker = 0, clock = 0, publication = 1 },
  { do = "read", at = 50, machine = 0, worker = 0, clock = 0, publication = 2 },
  { do = "deliver", at = 50, packet = 3, clock = 0 },
  { do = "send", at = 49, machine = 0, source = 0, clock = 0 },
  { do = "send", at = 50, machine = 1, source = 0, clock = 0 },
  { do = "deliver", at = 50, packet = 0, clock = 0 },
  { do = "stamp", at = 50, machine = 0, worker = 0 },
]

[[machine]]
sources = 3
faulty = 1
drift = 200
workers = 1
"#,
    trace: r#"0 send 50 0 0 0 -> Sent 0
1 send 50 0 1 0 -> Sent 1
2 send 50 0 2 0 -> Sent 2
3 answer 50 0 40 60 -> Put 3
4 answer 50 1 45 55 -> Put 4
5 answer 50 2 100 105 -> Put 5
6 deliver 50 3 0 -> Taken
7 deliver 50 4 0 -> Taken
8 deliver 50 5 0 -> Taken
9 fuse 50 0 0 -> Published 1 45 55
10 read 50 0 0 0 1 -> Read 45 55
11 read 50 0 0 0 2 -> Refused 1204
12 deliver 50 3 0 -> Refused 406
13 send 49 0 0 0 -> Refused 1201
14 send 50 1 0 0 -> Refused 1206
15 deliver 50 0 0 -> Refused 1203
16 stamp 50 0 0 -> Refused 1205
"#,
    report: r#"events 17
refused 6
fusions 1
readings 1
wrong 0
released 0
violations 0
suspect 0 1 2
premise kept
"#,
};

/// Any one of three sources may be wrong. Each end of each reading is the true time in a run that looks the same.
pub const ANY_MAY_LIE: WorkedRun = WorkedRun {
    script: r#"event = [
  { do = "send", at = 8, machine = 0, source = 0, clock = 1000 },
  { do = "send", at = 8, machine = 0, source = 1, clock = 1000 },
  { do = "send", at = 8, machine = 0, source = 2, clock = 1000 },
  { do = "answer", at = 8, packet = 0, lo = 0, hi = 10 },
  { do = "answer", at = 8, packet = 1, lo = 5, hi = 15 },
  { do = "answer", at = 8, packet = 2, lo = 12, hi = 20 },
  { do = "deliver", at = 8, packet = 3, clock = 1000 },
  { do = "deliver", at = 8, packet = 4, clock = 1000 },
  { do = "deliver", at = 8, packet = 5, clock = 1000 },
  { do = "fuse", at = 8, machine = 0, clock = 1000 },
  { do = "read", at = 9, machine = 0, worker = 0, clock = 1001, publication = 1 },
  { do = "read", at = 5008, machine = 0, worker = 0, clock = 6000, publication = 1 },
]

[[machine]]
sources = 3
faulty = 1
drift = 200
workers = 1
"#,
    trace: r#"0 send 8 0 0 1000 -> Sent 0
1 send 8 0 1 1000 -> Sent 1
2 send 8 0 2 1000 -> Sent 2
3 answer 8 0 0 10 -> Put 3
4 answer 8 1 5 15 -> Put 4
5 answer 8 2 12 20 -> Put 5
6 deliver 8 3 1000 -> Taken
7 deliver 8 4 1000 -> Taken
8 deliver 8 5 1000 -> Taken
9 fuse 8 0 1000 -> Published 1 5 15
10 read 9 0 0 1001 1 -> Read 5 17
11 read 5008 0 0 6000 1 -> Read 5004 5016
"#,
    report: r#"events 12
refused 0
fusions 1
readings 2
wrong 0
released 0
violations 0
premise kept
"#,
};

/// A clock shows 5,000 nanoseconds while 5,002 nanoseconds pass. This is more than its drift allows.
pub const DRIFT: WorkedRun = WorkedRun {
    script: r#"event = [
  { do = "send", at = 100, machine = 0, source = 0, clock = 0 },
  { do = "send", at = 5102, machine = 0, source = 0, clock = 5000 },
]

[[machine]]
sources = 1
faulty = 0
drift = 200
workers = 1
"#,
    trace: r#"0 send 100 0 0 0 -> Sent 0
1 send 5102 0 0 5000 -> Sent 1
"#,
    report: r#"events 2
refused 0
fusions 0
readings 0
wrong 0
released 0
violations 0
premise broken 1 0 drift
"#,
};

/// A machine restarts. The answers to its first life are refused, and its stamps begin anew.
pub const RESTART: WorkedRun = WorkedRun {
    script: r#"event = [
  { do = "send", at = 100, machine = 0, source = 0, clock = 0 },
  { do = "answer", at = 100, packet = 0, lo = 100, hi = 100 },
  { do = "deliver", at = 100, packet = 1, clock = 0 },
  { do = "fuse", at = 100, machine = 0, clock = 0 },
  { do = "arrive", at = 100, machine = 0, worker = 0, session = 0, number = 1, floor = 0 },
  { do = "read", at = 100, machine = 0, worker = 0, clock = 0, publication = 1 },
  { do = "stamp", at = 100, machine = 0, worker = 0 },
  { do = "queue", at = 100, machine = 0, worker = 0 },
  { do = "read", at = 101, machine = 0, worker = 0, clock = 1, publication = 1 },
  { do = "release", at = 101, machine = 0, worker = 0 },
  { do = "arrive", at = 101, machine = 0, worker = 0, session = 0, number = 2, floor = 500 },
  { do = "read", at = 101, machine = 0, worker = 0, clock = 1, publication = 1 },
  { do = "stamp", at = 101, machine = 0, worker = 0 },
  { do = "restart", at = 200, machine = 0, clock = 0 },
  { do = "read", at = 200, machine = 0, worker = 0, clock = 0, publication = 1 },
  { do = "deliver", at = 200, packet = 1, clock = 0 },
  { do = "send", at = 200, machine = 0, source = 0, clock = 0 },
  { do = "deliver", at = 200, packet = 1, clock = 0 },
  { do = "answer", at = 200, packet = 2, lo = 200, hi = 200 },
  { do = "deliver", at = 200, packet = 3, clock = 0 },
  { do = "fuse", at = 200, machine = 0, clock = 0 },
  { do = "arrive", at = 200, machine = 0, worker = 0, session = 0, number = 1, floor = 0 },
  { do = "read", at = 200, machine = 0, worker = 0, clock = 0, publication = 1 },
  { do = "stamp", at = 200, machine = 0, worker = 0 },
  { do = "queue", at = 200, machine = 0, worker = 0 },
]

[[machine]]
sources = 1
faulty = 0
drift = 0
workers = 1
"#,
    trace: r#"0 send 100 0 0 0 -> Sent 0
1 answer 100 0 100 100 -> Put 1
2 deliver 100 1 0 -> Taken
3 fuse 100 0 0 -> Published 1 100 100
4 arrive 100 0 0 0 1 0 -> Arrived
5 read 100 0 0 0 1 -> Read 100 100
6 stamp 100 0 0 -> Stamped 100
7 queue 100 0 0 -> Queued
8 read 101 0 0 1 1 -> Read 101 101
9 release 101 0 0 -> Released 0 1 100 101
10 arrive 101 0 0 0 2 500 -> Arrived
11 read 101 0 0 1 1 -> Read 101 101
12 stamp 101 0 0 -> Stamped 500
13 restart 200 0 0 -> Restarted 2
14 read 200 0 0 0 1 -> Refused 1204
15 deliver 200 1 0 -> Refused 407
16 send 200 0 0 0 -> Sent 2
17 deliver 200 1 0 -> Refused 407
18 answer 200 2 200 200 -> Put 3
19 deliver 200 3 0 -> Taken
20 fuse 200 0 0 -> Published 1 200 200
21 arrive 200 0 0 0 1 0 -> Arrived
22 read 200 0 0 0 1 -> Read 200 200
23 stamp 200 0 0 -> Stamped 200
24 queue 200 0 0 -> Queued
"#,
    report: r#"events 25
refused 3
fusions 2
readings 4
wrong 0
released 1
violations 0
premise kept
"#,
};

/// The run [`COMMIT_WAIT`] with a lease that begins later. So the stamp is delayed, and nothing is released.
pub const LEASE: WorkedRun = WorkedRun {
    script: r#"event = [
  { do = "send", at = 150, machine = 0, source = 0, clock = 0 },
  { do = "answer", at = 150, packet = 0, lo = 100, hi = 200 },
  { do = "deliver", at = 150, packet = 1, clock = 0 },
  { do = "fuse", at = 150, machine = 0, clock = 0 },
  { do = "arrive", at = 150, machine = 0, worker = 0, session = 0, number = 1, floor = 0 },
  { do = "read", at = 150, machine = 0, worker = 0, clock = 0, publication = 1 },
  { do = "lease", at = 150, machine = 0, lo = 300, hi = 310 },
  { do = "stamp", at = 150, machine = 0, worker = 0 },
  { do = "queue", at = 150, machine = 0, worker = 0 },
  { do = "read", at = 250, machine = 0, worker = 0, clock = 100, publication = 1 },
  { do = "release", at = 250, machine = 0, worker = 0 },
  { do = "read", at = 251, machine = 0, worker = 0, clock = 101, publication = 1 },
  { do = "release", at = 251, machine = 0, worker = 0 },
  { do = "send", at = 251, machine = 1, source = 0, clock = 0 },
  { do = "answer", at = 251, packet = 2, lo = 251, hi = 251 },
  { do = "deliver", at = 251, packet = 3, clock = 0 },
  { do = "fuse", at = 251, machine = 1, clock = 0 },
  { do = "arrive", at = 251, machine = 1, worker = 0, session = 0, number = 1, floor = 0 },
  { do = "read", at = 251, machine = 1, worker = 0, clock = 0, publication = 1 },
  { do = "stamp", at = 251, machine = 1, worker = 0 },
]

[[machine]]
sources = 1
faulty = 0
drift = 0
workers = 1

[[machine]]
sources = 1
faulty = 0
drift = 0
workers = 1
"#,
    trace: r#"0 send 150 0 0 0 -> Sent 0
1 answer 150 0 100 200 -> Put 1
2 deliver 150 1 0 -> Taken
3 fuse 150 0 0 -> Published 1 100 200
4 arrive 150 0 0 0 1 0 -> Arrived
5 read 150 0 0 0 1 -> Read 100 200
6 lease 150 0 300 310 -> Leased
7 stamp 150 0 0 -> Stamped 300
8 queue 150 0 0 -> Queued
9 read 250 0 0 100 1 -> Read 200 300
10 release 250 0 0 -> Released
11 read 251 0 0 101 1 -> Read 201 301
12 release 251 0 0 -> Released
13 send 251 1 0 0 -> Sent 2
14 answer 251 2 251 251 -> Put 3
15 deliver 251 3 0 -> Taken
16 fuse 251 1 0 -> Published 1 251 251
17 arrive 251 1 0 0 1 0 -> Arrived
18 read 251 1 0 0 1 -> Read 251 251
19 stamp 251 1 0 -> Stamped 251
"#,
    report: r#"events 20
refused 0
fusions 2
readings 4
wrong 0
released 0
violations 0
premise kept
"#,
};

/// Both ends of a reading are cut at the greatest time.
pub const LAST_TIME: WorkedRun = WorkedRun {
    script: r#"event = [
  { do = "send", at = 3999999999999999995, machine = 0, source = 0, clock = 0 },
  { do = "answer", at = 3999999999999999995, packet = 0, lo = 3999999999999999990, hi = 4000000000000000000 },
  { do = "deliver", at = 3999999999999999995, packet = 1, clock = 0 },
  { do = "fuse", at = 3999999999999999995, machine = 0, clock = 0 },
  { do = "read", at = 4000000000000000000, machine = 0, worker = 0, clock = 100, publication = 1 },
]

[[machine]]
sources = 1
faulty = 0
drift = 0
workers = 1
"#,
    trace: r#"0 send 3999999999999999995 0 0 0 -> Sent 0
1 answer 3999999999999999995 0 3999999999999999990 4000000000000000000 -> Put 1
2 deliver 3999999999999999995 1 0 -> Taken
3 fuse 3999999999999999995 0 0 -> Published 1 3999999999999999990 4000000000000000000
4 read 4000000000000000000 0 0 100 1 -> Read 4000000000000000000 4000000000000000000
"#,
    report: r#"events 5
refused 0
fusions 1
readings 1
wrong 0
released 0
violations 0
premise broken 4 0 drift
"#,
};
