//! The texts of the numbers below 1500, which `tools/reference` writes.

use crate::rows::Texts;

/// The texts of the numbers from 0 to 99; empty ones of a number that is none of a refusal.
pub(crate) fn texts_of_0(number: u64) -> Texts {
    match number {
        1 => Texts {
            name: "Memory",
            sentence: "out of memory",
            meaning: "Free some memory and try again, or give the commit up. After a refused `publish` open all anew.",
        },
        _ => Texts::EMPTY,
    }
}

/// The texts of the numbers from 100 to 199; empty ones of a number that is none of a refusal.
pub(crate) fn texts_of_1(number: u64) -> Texts {
    match number {
        101 => Texts {
            name: "Backwards",
            sentence: "the lower end is above the upper end",
            meaning: "An interval begins with its lower end. Of a session's `lease`, the lease stays as it was.",
        },
        102 => Texts {
            name: "PastMax",
            sentence: "the upper end is above the greatest time",
            meaning: "The greatest time is 4,000,000,000,000,000,000 ns.",
        },
        _ => Texts::EMPTY,
    }
}

/// The texts of the numbers from 200 to 299; empty ones of a number that is none of a refusal.
pub(crate) fn texts_of_2(number: u64) -> Texts {
    match number {
        201 => Texts {
            name: "Length",
            sentence: "the length is neither a request's nor an answer's",
            meaning: "A request has 24 bytes and an answer 40; in TTP1 16 and 32.",
        },
        202 => Texts {
            name: "Magic",
            sentence: "the bytes do not begin with the name of the format",
            meaning: "A message begins with `TTP2`, or with `TTP1`.",
        },
        203 => Texts {
            name: "Kind",
            sentence: "the kind is unknown, or belongs to the other length",
            meaning: "Byte 4 is 1 in a request and 2 in an answer, and the length has to be that of the kind.",
        },
        204 => Texts {
            name: "Reserved",
            sentence: "the reserved byte is not 0",
            meaning: "Byte 7 has to be 0.",
        },
        205 => Texts {
            name: "Number",
            sentence: "the machine is above 7, or the source is above 15",
            meaning: "A host has the machines 0 to 7, and a machine the sources 0 to 15.",
        },
        206 => Texts {
            name: "Nonce",
            sentence: "the nonce is 0",
            meaning: "A nonce is never 0.",
        },
        207 => Texts {
            name: "Span",
            sentence: "the two ends are not a valid span",
            meaning: "The lower end has to be at most the upper one, and that at most the greatest time.",
        },
        208 => Texts {
            name: "Epoch",
            sentence: "the epoch is 0",
            meaning: "A machine's first life has the epoch 1.",
        },
        _ => Texts::EMPTY,
    }
}

/// The texts of the numbers from 300 to 399; empty ones of a number that is none of a refusal.
pub(crate) fn texts_of_3(number: u64) -> Texts {
    match number {
        301 => Texts {
            name: "BadMessage",
            sentence: "the bytes are not a valid message",
            meaning: "A master drops the packet and counts it. It is no poll message, or of another format.",
        },
        302 => Texts {
            name: "OtherSource",
            sentence: "the message names another source",
            meaning: "A master drops the packet and counts it. The number of its `--source` is not the master's place in the machine's `masters`.",
        },
        303 => Texts {
            name: "NotRequest",
            sentence: "the message is not a request",
            meaning: "A master drops the packet and counts it. An answer came where requests come.",
        },
        304 => Texts {
            name: "Failed",
            sentence: "the reference could not be read",
            meaning: "The master's clock gave no time. Try again later.",
        },
        _ => Texts::EMPTY,
    }
}

/// The texts of the numbers from 400 to 499; empty ones of a number that is none of a refusal.
pub(crate) fn texts_of_4(number: u64) -> Texts {
    match number {
        401 => Texts {
            name: "NoSource",
            sentence: "there is no such source",
            meaning: "The number of the source is not below the number of sources.",
        },
        402 => Texts {
            name: "ClockBack",
            sentence: "the clock went back, or is past the greatest time",
            meaning: "The clock went back. Begin a new life with another clock. Of `ttd age`: `--got` is below `--sent`, or `--clock` below `--got` or above the greatest time.",
        },
        403 => Texts {
            name: "NoncesUsedUp",
            sentence: "every nonce has been used",
            meaning: "This was the last poll of the machine's life. Begin a new one.",
        },
        404 => Texts {
            name: "BadMessage",
            sentence: "the packet is no poll message",
            meaning: "Drop the packet and count it. It is no message of TTP2.",
        },
        405 => Texts {
            name: "NotMine",
            sentence: "the message is not an answer to this machine from this source",
            meaning: "Drop the packet and count it. It is a request, or was meant for another machine or source. Of `ttd age`: the message is a request.",
        },
        406 => Texts {
            name: "NotOutstanding",
            sentence: "no poll with this nonce waits for an answer",
            meaning: "Drop the packet and count it. It came too late, twice, or forged.",
        },
        407 => Texts {
            name: "OtherEpoch",
            sentence: "the answer is to another life of this machine",
            meaning: "Drop the packet and count it. It answers a poll from before the machine's restart, or is forged.",
        },
        _ => Texts::EMPTY,
    }
}

/// The texts of the numbers from 500 to 599; empty ones of a number that is none of a refusal.
pub(crate) fn texts_of_5(number: u64) -> Texts {
    match number {
        501 => Texts {
            name: "NoSource",
            sentence: "there is no source; a machine asks one source at least",
            meaning: "Name at least one source.",
        },
        502 => Texts {
            name: "TooMany",
            sentence: "there are more sources than can be fused; a machine asks sixteen sources at most",
            meaning: "Name at most 16 sources.",
        },
        503 => Texts {
            name: "TooFew",
            sentence: "there are too few sources for the number that may be wrong; too few sources for so many faulty ones",
            meaning: "Name at least `2 * faulty + 1` sources, or lower `faulty`.",
        },
        504 => Texts {
            name: "NoPoint",
            sentence: "no time is possible",
            meaning: "More than f sources are faulty, or the machine's clock is past its drift: an alarm. Readings go on from the last fusion and widen.",
        },
        _ => Texts::EMPTY,
    }
}

/// The texts of the numbers from 600 to 699; empty ones of a number that is none of a refusal.
pub(crate) fn texts_of_6(number: u64) -> Texts {
    match number {
        601 => Texts {
            name: "LeftSet",
            sentence: "the left set does not show that the lower end is possible",
            meaning: "`left` has to name all sources except F, each once, in any order, and each has to hold the lower end of the claim.",
        },
        602 => Texts {
            name: "RightSet",
            sentence: "the right set does not show that the upper end is possible",
            meaning: "`right` has to name all sources except F, each once, in any order, and each has to hold the upper end of the claim.",
        },
        603 => Texts {
            name: "Cover",
            sentence: "the stretches do not cover the times outside the claim side by side",
            meaning: "The stretches have to lie side by side, in order, over all time below and above the claim.",
        },
        604 => Texts {
            name: "TooDeep",
            sentence: "a stretch is met by enough sources for a possible time",
            meaning: "All sources except F, or more, meet the stretch, so the claim is too narrow.",
        },
        605 => Texts {
            name: "Depth",
            sentence: "a stretch names another number than that of the sources that meet it",
            meaning: "The last number of a stretch has to be how many sources meet it.",
        },
        606 => Texts {
            name: "BadText",
            sentence: "the text is no certificate",
            meaning: "The text is not written as `ttd fuse` writes a certificate.",
        },
        _ => Texts::EMPTY,
    }
}

/// The texts of the numbers from 700 to 799; empty ones of a number that is none of a refusal.
pub(crate) fn texts_of_7(number: u64) -> Texts {
    match number {
        701 => Texts {
            name: "Unknown",
            sentence: "too few sources have made a statement",
            meaning: "Fewer than n - f sources have answered in this life. Poll again; if it lasts, look for the masters that are silent.",
        },
        702 => Texts {
            name: "Workers",
            sentence: "a machine has from one to thirty-two workers",
            meaning: "Choose from 1 to 32 workers.",
        },
        _ => Texts::EMPTY,
    }
}

/// The texts of the numbers from 800 to 899; empty ones of a number that is none of a refusal.
pub(crate) fn texts_of_8(number: u64) -> Texts {
    match number {
        801 => Texts {
            name: "Nothing",
            sentence: "nothing was published so far, or nothing is published any more",
            meaning: "The machine has published nothing yet. Wait for its first fusion, and try again. In the shared file it also means that the machine publishes nothing any more, as after a broken assumption.",
        },
        802 => Texts {
            name: "ClockBack",
            sentence: "the clock is below that of the publication, or above the greatest time; the clock is below that of the last publication; the clock of the publication is above the greatest time",
            meaning: "For a reading: this thread's clock is behind the daemon's, or went back. For `publish`: the clock went back; begin a new life with another clock.",
        },
        803 => Texts {
            name: "Failed",
            sentence: "the clock could not be read",
            meaning: "The machine's clock failed. Try again later. For a reading, 803 is tested before 802.",
        },
        804 => Texts {
            name: "Places",
            sentence: "no reader slot is free",
            meaning: "`open` takes from 1 to 32 readers. Correct the setting, or try again after others have ended.",
        },
        805 => Texts {
            name: "UsedUp",
            sentence: "no number is left for another publication",
            meaning: "This was the last publication of the machine's life, or of the shared file. Begin a new life.",
        },
        _ => Texts::EMPTY,
    }
}

/// The texts of the numbers from 900 to 999; empty ones of a number that is none of a refusal.
pub(crate) fn texts_of_9(number: u64) -> Texts {
    match number {
        901 => Texts {
            name: "UsedUp",
            sentence: "no stamp is left up to the greatest time",
            meaning: "No time up to the greatest is at least the reading's latest, the floor and the lower end of the lease, and above every stamp given.",
        },
        902 => Texts {
            name: "FloorTooFar",
            sentence: "the floor is too far ahead of the latest",
            meaning: "The floor is more than 10,000,000,000 ns above the reading's latest. Wait, or lower the floor. Tested before 901 and 903.",
        },
        903 => Texts {
            name: "LeaseOver",
            sentence: "the lease is over",
            meaning: "The least possible stamp is above the upper end of the lease, or within `stampers`, or the leases of session and machine do not meet. Set a later lease, and begin again.",
        },
        904 => Texts {
            name: "Seats",
            sentence: "there are no seats, or too many",
            meaning: "Choose from 1 to 32 seats.",
        },
        _ => Texts::EMPTY,
    }
}

/// The texts of the numbers from 1000 to 1099; empty ones of a number that is none of a refusal.
pub(crate) fn texts_of_10(number: u64) -> Texts {
    match number {
        1001 => Texts {
            name: "Full",
            sentence: "the queue is full",
            meaning: "65,536 commits are pending. Release, then queue with the same stamp.",
        },
        1002 => Texts {
            name: "IdThere",
            sentence: "a commit with this id waits or was released",
            meaning: "An id is used once in each life of the machine. Use a greater one.",
        },
        1003 => Texts {
            name: "StampThere",
            sentence: "a commit with this stamp waits or was released",
            meaning: "The stamp came from another sequencer. Two sequencers of one machine may give equal stamps.",
        },
        1004 => Texts {
            name: "Waits",
            sentence: "a commit of the session waits",
            meaning: "A commit of the session is pending. Release it, then forget.",
        },
        _ => Texts::EMPTY,
    }
}

/// The texts of the numbers from 1100 to 1199; empty ones of a number that is none of a refusal.
pub(crate) fn texts_of_11(number: u64) -> Texts {
    match number {
        1101 => Texts {
            name: "BadLine",
            sentence: "the line is not a request",
            meaning: "The line is not `now`, `after T`, `before T`, `commit ID FLOOR` or `lease LO HI`, or a number in it has another form. The session goes on.",
        },
        1102 => Texts {
            name: "LongLine",
            sentence: "the line is too long",
            meaning: "A line has at most 64 bytes before its line feed. The rest is skipped, and the session goes on.",
        },
        1103 => Texts {
            name: "OldId",
            sentence: "the number of the commit is below the last one",
            meaning: "Ids rise within a session. Take one above the last.",
        },
        1104 => Texts {
            name: "OtherWaits",
            sentence: "another commit is pending",
            meaning: "The last commit of this session is not yet known as released. Send its `commit` line until the reply is `committed`.",
        },
        1105 => Texts {
            name: "ReadFailed",
            sentence: "the reader failed, or the reads are used up",
            meaning: "The reader failed, or all reads were made and none said that the input has ended.",
        },
        1106 => Texts {
            name: "WriteFailed",
            sentence: "the writer failed",
            meaning: "The writer failed.",
        },
        _ => Texts::EMPTY,
    }
}

/// The texts of the numbers from 1200 to 1299; empty ones of a number that is none of a refusal.
pub(crate) fn texts_of_12(number: u64) -> Texts {
    match number {
        1201 => Texts {
            name: "TimeBack",
            sentence: "true time fell, or passed the greatest time",
            meaning: "The true time of an event is at least that of the event before it, and at most the greatest time.",
        },
        1202 => Texts {
            name: "ClockBack",
            sentence: "the machine's clock went back, or passed the greatest time",
            meaning: "A machine's clock never falls within a life (a restart begins a new one), and is at most the greatest time.",
        },
        1203 => Texts {
            name: "NoPacket",
            sentence: "there is no such packet",
            meaning: "No packet of this number was put. For `answer` it has to be a request; for `deliver` an answer or a forged packet.",
        },
        1204 => Texts {
            name: "NoPublication",
            sentence: "there is no such publication, or the worker has read from a later one",
            meaning: "The publication is 0 or above the last one, or the worker has read from a later one.",
        },
        1205 => Texts {
            name: "NothingThere",
            sentence: "the worker has nothing to do this with",
            meaning: "`stamp` needs a task without a stamp and a later reading; `queue` a stamped task; `release` a reading.",
        },
        1206 => Texts {
            name: "UnknownNumber",
            sentence: "there is no such machine, source or worker",
            meaning: "Machines, sources and workers are counted from 0.",
        },
        1207 => Texts {
            name: "Machines",
            sentence: "there can't be a world of these machines",
            meaning: "A run has from 1 to 8 machines, whose numbers are within the limits. No script gives others.",
        },
        1208 => Texts {
            name: "LivesUsedUp",
            sentence: "the machine has used up the numbers of its lives",
            meaning: "A machine has at most 2^64 - 1 lives.",
        },
        _ => Texts::EMPTY,
    }
}

/// The texts of the numbers from 1300 to 1399; empty ones of a number that is none of a refusal.
pub(crate) fn texts_of_13(number: u64) -> Texts {
    match number {
        1301 => Texts {
            name: "NotToml",
            sentence: "..",
            meaning: "The script is not TOML, is nested more than 80 deep, or has an integer beyond 64 bits. Standard error says where.",
        },
        1302 => Texts {
            name: "MissingKey",
            sentence: "..: the key is missing; the script has no live part",
            meaning: "A key of the script is absent, or there is no machine; for `ttd live`, also no table `[live]`.",
        },
        1303 => Texts {
            name: "WrongValue",
            sentence: "the live part does not fit the machine",
            meaning: "A value of the script has another type or is out of range. For `ttd live`: not one machine, a master for each source and a session for each worker.",
        },
        1304 => Texts {
            name: "UnknownStep",
            sentence: "event ..: do: no event is called so",
            meaning: "`do` of an event is no word for an event.",
        },
        1305 => Texts {
            name: "TooManyEvents",
            sentence: "there are more than 4096 events",
            meaning: "A script has at most 4,096 events.",
        },
        _ => Texts::EMPTY,
    }
}

/// The texts of the numbers from 1400 to 1499; empty ones of a number that is none of a refusal.
pub(crate) fn texts_of_14(number: u64) -> Texts {
    match number {
        1401 => Texts {
            name: "NotAReading",
            sentence: "the event is not there, or its reply is no reading",
            meaning: "`--event` is not the number of an event whose reply is a reading.",
        },
        1402 => Texts {
            name: "Cut",
            sentence: "the end of the reading lies past the greatest time before it is cut",
            meaning: "That end of the reading lies past the greatest time, so there is no twin. Ask for the other side.",
        },
        _ => Texts::EMPTY,
    }
}
