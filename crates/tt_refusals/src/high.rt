//! The texts of the numbers from 1500 on, which `tools/reference` writes.

use crate::rows::Texts;

/// The texts of the numbers from 1500 to 1599; empty ones of a number that is none of a refusal.
pub(crate) fn texts_of_15(number: u64) -> Texts {
    match number {
        1501 => Texts {
            name: "Failed",
            sentence: "the link failed; no socket can be had at ..; no socket can be had to ask ..",
            meaning: "A socket or connection could not be had, or failed, or no fitting reply came. Standard error names the address and the system's reason. Try again later.",
        },
        1502 => Texts {
            name: "ClockFailed",
            sentence: "the clock could not be read",
            meaning: "A clock failed. Try again later.",
        },
        1503 => Texts {
            name: "BadLimits",
            sentence: "the streams and clocks do not fit the limits",
            meaning: "`run_node` needs from 1 to 32 streams, a clock for each, and no limit of 0. Correct the setting.",
        },
        1504 => Texts {
            name: "GateClosed",
            sentence: "the gate is closed",
            meaning: "A gate, which only tests use, never let the call pass.",
        },
        _ => Texts::EMPTY,
    }
}

/// The texts of the numbers from 1600 to 1699; empty ones of a number that is none of a refusal.
pub(crate) fn texts_of_16(number: u64) -> Texts {
    match number {
        1601 => Texts {
            name: "Side",
            sentence: "invalid arguments",
            meaning: "Standard error says which argument is wrong. The input is not read.",
        },
        1602 => Texts {
            name: "BadHex",
            sentence: "not hex",
            meaning: "The input of `ttd age` has to be hexadecimal digits, and perhaps a line feed.",
        },
        1603 => Texts {
            name: "BadLine",
            sentence: "line .. is not a commit's line; invalid input; the file is longer than 1048576 bytes, or is not UTF-8",
            meaning: "The input or file is longer than 1,048,576 bytes (`ttd judge`: 1,073,741,824), is not UTF-8, or is not the text that the command reads.",
        },
        1604 => Texts {
            name: "ReadFailed",
            sentence: "the file can't be read; reading the input failed; reading failed",
            meaning: "The input or a file could not be read, or is no regular file. Standard error says why.",
        },
        1605 => Texts {
            name: "WriteFailed",
            sentence: "writing failed",
            meaning: "The answer could not be written. A prefix of it may be out.",
        },
        _ => Texts::EMPTY,
    }
}

/// The texts of the numbers from 1700 to 1799; empty ones of a number that is none of a refusal.
pub(crate) fn texts_of_17(number: u64) -> Texts {
    match number {
        1701 => Texts {
            name: "CannotOpen",
            sentence: "the file cannot be opened or read; the file cannot be opened or made",
            meaning: "The shared file cannot be opened, mapped, read or made. Before the machine's first reading it is not there yet. Standard error says why.",
        },
        1702 => Texts {
            name: "BadFile",
            sentence: "the file is not a shared file of this boot, or not of the clock of this process; the clock of this process is not that of the host",
            meaning: "The file is no regular file, is of another version, has another length, owner, boot or clock, or others may write it. A process in a time namespace has another clock.",
        },
        1703 => Texts {
            name: "BadSlot",
            sentence: "no daemon wrote this slot",
            meaning: "The slot has another index, or a number out of range: the file was damaged, or another program wrote it.",
        },
        1704 => Texts {
            name: "Contended",
            sentence: "each try met another publication",
            meaning: "1,000 tries met a publication in progress. Try again.",
        },
        1705 => Texts {
            name: "Failed",
            sentence: "a write to the file failed; the place could not be written",
            meaning: "A write failed, or the file or its `.lock` is no longer at its path. The machine opens it anew after a pause of at most 30 seconds.",
        },
        1706 => Texts {
            name: "Broken",
            sentence: "an earlier write failed: the file has to be opened again",
            meaning: "The file is opened again at the next try.",
        },
        1707 => Texts {
            name: "Locked",
            sentence: "another process writes the file",
            meaning: "Another process holds the `.lock` beside the file. Two machines may not have the same `shared`.",
        },
        1708 => Texts {
            name: "TooWide",
            sentence: "the clock is past the last reading at which the publication may be used",
            meaning: "Readings would be wider than `max_width`. The sources answered long ago, or slowly; or the machine made a new file: open it again.",
        },
        1709 => Texts {
            name: "WriteLasts",
            sentence: "the write of the shared file lasts",
            meaning: "A try to write the shared file has lasted for more than a second: its file system hangs. Readers alone notice, by a reading that grows stale.",
        },
        1710 => Texts {
            name: "NoSlewed",
            sentence: "the file gives nothing by CLOCK_MONOTONIC",
            meaning: "The host slews CLOCK_MONOTONIC by more than `slew` allows, until the next round in which it does not; `slew_too_fast` in the log tells by how much. Read in C, Rust or Python, which read the raw clock, or by a session; have the host slew less; or raise `slew`.",
        },
        _ => Texts::EMPTY,
    }
}

/// The texts of the numbers from 1800 to 1899; empty ones of a number that is none of a refusal.
pub(crate) fn texts_of_18(number: u64) -> Texts {
    match number {
        1801 => Texts {
            name: "NotToml",
            sentence: "the text is not TOML",
            meaning: "Standard error names the line.",
        },
        1802 => Texts {
            name: "UnknownKey",
            sentence: "a key is not known",
            meaning: "The key is misspelled, or belongs to a newer version. Standard error names it and its line.",
        },
        1803 => Texts {
            name: "MissingKey",
            sentence: "..: the key is missing",
            meaning: "`machine`, `masters` or `[[master]]`, `listen` and `state` have to be there; `keys` too if a master has a `key`. For `ttd top`: `status`.",
        },
        1804 => Texts {
            name: "WrongValue",
            sentence: "..: the value has another type, or is out of range",
            meaning: "Standard error says what the value would have to be. A path is not empty, and that of `socket` has at most 107 bytes.",
        },
        1805 => Texts {
            name: "NotLocal",
            sentence: "..: not an address of this host, as 127.0.0.1:7001; a master outside it needs a key; outside this host a key is needed: --keys FILE, or --listen 127.0.0.1:PORT; neither an address of this host, as 127.0.0.1:7101, nor a path: a text with a slash, or without a colon",
            meaning: "The address lies outside this host. A master there needs a `key`, and `ttd master` with such a `--listen` needs `--keys`. Of `ask` and `top`: the text is not `127.0.0.1:` and a port, nor a path.",
        },
        1806 => Texts {
            name: "TooManyFaulty",
            sentence: "faulty: .. of .. masters may be faulty at most ..",
            meaning: "`faulty` is at most (masters - 1) / 2.",
        },
        1807 => Texts {
            name: "CannotListen",
            sentence: "the address can't be listened at",
            meaning: "The address of `listen` is taken, or not allowed.",
        },
        1808 => Texts {
            name: "CannotPoll",
            sentence: "the socket for polls can't be opened",
            meaning: "The socket for polls could not be made. Standard error says why.",
        },
        1809 => Texts {
            name: "CannotListenSocket",
            sentence: "the Unix socket can't be listened at",
            meaning: "What stands at the path of `socket` could not be looked at or replaced.",
        },
        1810 => Texts {
            name: "TooFewWorkers",
            sentence: "workers: a Unix socket takes one of at least two workers",
            meaning: "With `socket`, half of the workers serve it: set `workers` to at least 2.",
        },
        1811 => Texts {
            name: "ReadFailed",
            sentence: "the epoch can't be read",
            meaning: "The file `epoch` in `state` could not be read.",
        },
        1812 => Texts {
            name: "FolderFailed",
            sentence: "the folder of the epoch can't be used; the lock of the epoch can't be opened; the epoch can't be written",
            meaning: "`state` is no folder, or its `lock` cannot be opened. Later: the epoch cannot be written, synced or renamed.",
        },
        1813 => Texts {
            name: "NotAnEpochFile",
            sentence: "the file is not an epoch file",
            meaning: "The file `epoch` in `state` holds another text, and is left as it is. OPERATING.md, section 4, says how to write it anew.",
        },
        1814 => Texts {
            name: "UsedUp",
            sentence: "no epoch is left",
            meaning: "The epoch is 2^64 - 1. No life can follow it.",
        },
        1815 => Texts {
            name: "Locked",
            sentence: "another process holds the folder",
            meaning: "A machine with this `state` runs already. Two processes never share one.",
        },
        1816 => Texts {
            name: "NoThread",
            sentence: "a thread could not be started; no thread can be started",
            meaning: "The system starts no more threads. Raise the limit of processes.",
        },
        1817 => Texts {
            name: "SamePath",
            sentence: "..: the path, its draft or its lock has another purpose as well",
            meaning: "Two paths have a file in common: themselves, one with `.new`, `.lock`, `.break-1` or `.break-2` after it, or a file in `state`.",
        },
        1818 => Texts {
            name: "SameMaster",
            sentence: "masters: one is named twice",
            meaning: "Each master has an address of its own.",
        },
        1819 => Texts {
            name: "NotSocket",
            sentence: "what is at the path of the Unix socket is not a socket",
            meaning: "Something else stands at the path of `socket`. Remove it, or choose another path.",
        },
        1821 => Texts {
            name: "FloorAboveCap",
            sentence: "the floor is further ahead than this server allows",
            meaning: "The commit's floor, or the lower end of the lease, is further ahead of the latest of a reading than `floor_ahead`. Look whether the floor is right. If it is, wait, and begin again with it; a larger `floor_ahead` lets one client delay all commits.",
        },
        1822 => Texts {
            name: "ClientLeft",
            sentence: "the client has left",
            meaning: "The commit was pending when its connection broke, its client had closed its side for longer than `idle`, or the machine ended.",
        },
        1823 => Texts {
            name: "Broken",
            sentence: "an assumption of the service is broken on this machine",
            meaning: "The machine has noticed a broken assumption. It answers nothing but `lease` from then on, and ends: with status 3, or with 2 where `on_break` is `stay`. Where that is `warn`, it goes on and does not refuse.",
        },
        1824 => Texts {
            name: "TooWide",
            sentence: "the reading is wider than this server allows",
            meaning: "The reading is wider than `max_width`: the sources answered long ago, or slowly. Try again after a pause.",
        },
        1825 => Texts {
            name: "BothForms",
            sentence: "masters: there is also [[master]], and one of the two is enough",
            meaning: "Name the masters by `masters` or by tables `[[master]]`, not by both.",
        },
        1826 => Texts {
            name: "SameKey",
            sentence: "master: two have a key in common",
            meaning: "Each pair of machine and master has a key of its own.",
        },
        1827 => Texts {
            name: "NoKey",
            sentence: "the file of keys has no key with the number ..",
            meaning: "Add a line with this number to the file of keys, or correct `key`.",
        },
        1828 => Texts {
            name: "MixedFamilies",
            sentence: "masters of IPv4 and of IPv6, and a socket of IPv6 is for IPv6 alone",
            meaning: "`net.ipv6.bindv6only` is 1, so one socket cannot poll masters of IPv4 and IPv6, or of IPv4 and with a name.",
        },
        1829 => Texts {
            name: "NoRandom",
            sentence: "no random bytes",
            meaning: "The system gives no random bytes.",
        },
        1830 => Texts {
            name: "CannotServePages",
            sentence: "the address for pages can't be listened at",
            meaning: "The address of `http` is taken, or not allowed.",
        },
        1831 => Texts {
            name: "SmallStack",
            sentence: "the stack is smaller than 2097152 bytes",
            meaning: "Raise `ulimit -s` to at least 2048.",
        },
        _ => Texts::EMPTY,
    }
}

/// The texts of the numbers from 2200 to 2299; empty ones of a number that is none of a refusal.
pub(crate) fn texts_of_22(number: u64) -> Texts {
    match number {
        2201 => Texts {
            name: "Length",
            sentence: "the length is not that of an envelope",
            meaning: "A sealed message has from 20 to 60 bytes. The sender has no key, or the packet is forged.",
        },
        2202 => Texts {
            name: "UnknownKey",
            sentence: "no key has the number",
            meaning: "The sender seals under a key that the receiver's file does not have, or the packet is forged.",
        },
        2203 => Texts {
            name: "WrongTag",
            sentence: "the tag is not that of the message",
            meaning: "The sender has other bytes for the key of this number, or the packet is forged or damaged.",
        },
        2211 => Texts {
            name: "CannotRead",
            sentence: "the file of keys can't be read; the user of this process is not known, since /proc/self can't be looked at",
            meaning: "The path is no regular file's, or the file, or `/proc/self`, cannot be read.",
        },
        2212 => Texts {
            name: "Mode",
            sentence: "the mode of the file of keys is neither 0600 nor 0400",
            meaning: "`chmod 0400` the file of keys.",
        },
        2213 => Texts {
            name: "Owner",
            sentence: "the file of keys has another owner",
            meaning: "`chown` the file of keys to the user of the program.",
        },
        2214 => Texts {
            name: "TooLong",
            sentence: "the file of keys is too long",
            meaning: "A file of keys has at most 65,536 bytes.",
        },
        2215 => Texts {
            name: "BadLine",
            sentence: "line .. is not a key",
            meaning: "A line is `ID HEX64` or `ID HEX64 NAME`, as `ttd key` makes it. Standard error has the number of the line, never its text.",
        },
        2216 => Texts {
            name: "SameNumber",
            sentence: "the key in line .. has the number of an earlier one",
            meaning: "Give one of the two lines another number. Standard error has the number of the later line.",
        },
        _ => Texts::EMPTY,
    }
}

/// The texts of the numbers from 2300 to 2399; empty ones of a number that is none of a refusal.
pub(crate) fn texts_of_23(number: u64) -> Texts {
    match number {
        2301 => Texts {
            name: "Length",
            sentence: "the length is not that of a reply",
            meaning: "A reply has 48 bytes; with a key, 72.",
        },
        2302 => Texts {
            name: "OtherKey",
            sentence: "the key has another number",
            meaning: "The reply is signed under another number than that of `--ntp-key`.",
        },
        2303 => Texts {
            name: "WrongDigest",
            sentence: "the digest is not that of the reply",
            meaning: "The server has another key for this number, or the reply is forged.",
        },
        2304 => Texts {
            name: "Version",
            sentence: "the version is not 4",
            meaning: "Only NTP version 4 is taken.",
        },
        2305 => Texts {
            name: "Mode",
            sentence: "the mode is not a server's",
            meaning: "The mode of a server's reply is 4.",
        },
        2306 => Texts {
            name: "Origin",
            sentence: "the origin timestamp is not the nonce",
            meaning: "The reply does not answer the last request: it is late, repeated or forged.",
        },
        2307 => Texts {
            name: "Rate",
            sentence: "the server is asked too often",
            meaning: "The kiss code RATE. From now on the server is asked half as often, at least every 131,072 s.",
        },
        2308 => Texts {
            name: "Denied",
            sentence: "the server gives this client no time",
            meaning: "The kiss code DENY. The server is never asked again.",
        },
        2309 => Texts {
            name: "Restricted",
            sentence: "by its rules the server gives this client no time",
            meaning: "The kiss code RSTR. The server is never asked again.",
        },
        2310 => Texts {
            name: "Kiss",
            sentence: "the server sends another kiss code",
            meaning: "At stratum 0, a kiss code other than RATE, DENY and RSTR.",
        },
        2311 => Texts {
            name: "Unset",
            sentence: "the server's clock is not set",
            meaning: "The leap indicator is 3, or the stratum 0 without a kiss code: the server is not synchronized.",
        },
        2312 => Texts {
            name: "Stratum",
            sentence: "the stratum is 16 or above",
            meaning: "The server is not synchronized.",
        },
        2313 => Texts {
            name: "Local",
            sentence: "the server follows nothing but its own clock",
            meaning: "The reference is 127.127.1.x. `--local` takes such a server.",
        },
        2314 => Texts {
            name: "NoTransmit",
            sentence: "the transmit timestamp is 0",
            meaning: "The server did not say when it sent the reply.",
        },
        2315 => Texts {
            name: "Backwards",
            sentence: "the transmit timestamp is before the receive timestamp",
            meaning: "The server's timestamps are out of order.",
        },
        2316 => Texts {
            name: "Reference",
            sentence: "the transmit timestamp is before the reference timestamp",
            meaning: "The server's timestamps are out of order.",
        },
        2317 => Texts {
            name: "Distance",
            sentence: "the radius is above a second",
            meaning: "The server's root delay and dispersion leave its time unknown by more than a second. Choose another server.",
        },
        2318 => Texts {
            name: "PastMax",
            sentence: "the upper end is above the greatest time",
            meaning: "The server's time is beyond the greatest time.",
        },
        _ => Texts::EMPTY,
    }
}

/// The texts of the numbers from 2400 to 2499; empty ones of a number that is none of a refusal.
pub(crate) fn texts_of_24(number: u64) -> Texts {
    match number {
        2401 => Texts {
            name: "Clock",
            sentence: "the clock could not be read",
            meaning: "The master's clock could not be read, so it answers nothing.",
        },
        2402 => Texts {
            name: "Unanswered",
            sentence: "no server has answered yet",
            meaning: "No server has answered so far. Look at address, firewall and key.",
        },
        2403 => Texts {
            name: "Old",
            sentence: "the last answer is too old",
            meaning: "The last reply is older than `--max-age`.",
        },
        2404 => Texts {
            name: "Refused",
            sentence: "the last reply was refused",
            meaning: "The server's last reply was refused (2310 to 2318): it gives no time.",
        },
        2405 => Texts {
            name: "Stopped",
            sentence: "the server told this client to stop",
            meaning: "The server told this client to stop (2308, 2309). Choose another server.",
        },
        2406 => Texts {
            name: "Leap",
            sentence: "a leap second is near",
            meaning: "The master is silent from a minute before an announced leap second until a reply dated after it announces none, or is dated an hour after it.",
        },
        2407 => Texts {
            name: "Disagreed",
            sentence: "the servers disagree",
            meaning: "More than `--faulty` of the servers are wrong. Compare them, and remove those that are.",
        },
        2408 => Texts {
            name: "Stepped",
            sentence: "the clock was stepped, or is off by more than was stated",
            meaning: "It changed against `CLOCK_MONOTONIC` by more than 500 parts per million explain, or against `CLOCK_MONOTONIC_RAW` by more than `--drift` and twice `--uncertainty` do. The master is silent until it is started again.",
        },
        2411 => Texts {
            name: "NoKey",
            sentence: "no line has the number of the key",
            meaning: "Add a line with the number of `--ntp-key` to the file of `--ntp-keys`.",
        },
        2412 => Texts {
            name: "BadLine",
            sentence: "the line of the key has not three words",
            meaning: "A line is `ID TYPE KEY`, as in chrony's file of keys.",
        },
        2413 => Texts {
            name: "OtherType",
            sentence: "the type of the key is neither SHA1 nor SHA256",
            meaning: "Use a key of the type SHA1 or SHA256.",
        },
        2414 => Texts {
            name: "BadKey",
            sentence: "the number of the key is 0, or it has no bytes, or more than 64, or bad digits",
            meaning: "KEY is `HEX:` and digits, `ASCII:` and text, or text alone; it has from 1 to 64 bytes, and its number is above 0.",
        },
        _ => Texts::EMPTY,
    }
}

/// The texts of the numbers from 2600 to 2699; empty ones of a number that is none of a refusal.
pub(crate) fn texts_of_26(number: u64) -> Texts {
    match number {
        2601 => Texts {
            name: "NotStatus",
            sentence: "the text is not the status of a machine",
            meaning: "The file or address gives something other than a machine's status. Look at the path or the port.",
        },
        2602 => Texts {
            name: "NotEvidence",
            sentence: "the text is not the evidence of a publication",
            meaning: "The file or address gives something other than a machine's evidence. Look at the path or the port.",
        },
        _ => Texts::EMPTY,
    }
}
