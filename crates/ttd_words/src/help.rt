//! The texts of the help after the options: of the program, and of each command that reads its input and ends.

/// What every command does with its input.
pub(crate) const ABOUT_ANSWERS: &str = "\
Each command above `master` reads standard input to its end, at most 1048576 bytes (judge: 1 GiB):
  ttd run < FILE
It prints its answer, or the one line `refused N`; standard error says what N means.

One more command stands beside these: `ttd explain N` says what to do about a refusal.
Times and clock readings are nanoseconds. `ttd <COMMAND> --help` says more of a command.

The commands from `master` on are services, which talk to other processes. master and serve run until
they are ended.

Exit status:
  0  the answer, this help or the version was printed
  1  out of memory: `refused 1`
  2  the arguments or the input were refused
  3  run: the run breaks an assumption; live: a reading was wrong; judge: a commit is violated;
     serve: the machine has ended itself, since one of its assumptions is broken
  4  a device failed: 1604 in reading, 1605 in writing; live: also 1501 a link, 1502 a clock,
     304 a reference
  5  ask: a commit is still pending after all tries

Every command refuses invalid arguments by 1601, and those that read standard input whole refuse one
that is too long by 1603.";

/// What `age` reads and prints.
pub(crate) const ABOUT_AGE: &str = "\
Reads standard input: ttd age --sent N --got N --clock N < FILE
One answer of a time source to a poll, in hex, of either message format; one line feed may follow.
--sent, --got and --clock are readings of the same clock, in nanoseconds.

Prints `aged LO HI`, the interval that holds the true time when the clock shows --clock.

Example:
  echo 54545031020001000000000000000001000000003b9aca00000000003b9acde8 |
    ttd age --sent 500 --got 900 --clock 30000000900
prints
  aged 30994000000 31006001401

Refused:
  1602        the input is not hex
  201 to 208  it is no poll message
  405         it is a request
  402         --got is below --sent, or --clock below --got or past the greatest time";

/// What `fuse` reads and prints.
pub(crate) const ABOUT_FUSE: &str = "\
Reads standard input: ttd fuse < FILE
A line `faulty N`, and then a line `span LO HI` for each source, of which at most N may be wrong.

Prints the shortest interval that is right whichever they are, `claim LO HI`, and its certificate
(`left`, `right`, `below`, `above`); then `suspects` with the numbers of the sources that do not
meet it, or `suspects none`.

Example:
  printf 'faulty 1\\nspan 0 10\\nspan 5 15\\nspan 12 20\\n' | ttd fuse

Refused:
  1603  the input is not such lines
  501   there is no source
  502   there are more than 16
  503   there are fewer than 2 N + 1
  504   no time is possible";

/// What `check` reads and prints.
pub(crate) const ABOUT_CHECK: &str = "\
Reads standard input: ttd check < FILE
The lines that `fuse` reads, and behind them those that it prints, without `suspects`.

Prints `valid` where the certificate proves the claim.

Example:
  ttd check < examples/three.check

Refused:
  1603        the lines of `fuse` are wrong
  606         the certificate is not written as `fuse` writes one
  501 to 503  as `fuse`
  601 to 605  the certificate does not prove the claim";

/// What `run` reads and prints.
pub(crate) const ABOUT_RUN: &str = "\
Reads standard input: ttd run < FILE
A script in TOML: a table `[[machine]]` for each machine, and a table `[[event]]` for each event.

Prints the counts of the run (`events`, `refused`, `fusions`, `readings`, `wrong`, `released`,
`violations`), a line `suspect MACHINE PUBLICATION SOURCE` for each suspect, and `premise kept`, or
`premise broken EVENT MACHINE` with `drift` or `false`; then the status is 3.

Example:
  ttd run < examples/one-liar.toml

Refused:
  1603  the input is not UTF-8
  1301  it is not TOML
  1302  a key is missing
  1303  a key has a wrong value
  1304  an event's `do` is no known word
  1305  there are more than 4096 events";

/// What `trace` reads and prints.
pub(crate) const ABOUT_TRACE: &str = "\
Reads standard input: ttd trace < FILE
A script, as `run` reads it.

Prints a line for each event of its run: the event's number, counted from 0, the event with its
true time and its numbers, ` -> `, and the reply: its name and its numbers, or `Refused N`. Behind a
reading that does not hold the true time of its event stands ` wrong`.

Example:
  ttd trace < examples/one-liar.toml
prints as its last line
  10 read 50 0 0 0 1 -> Read 45 55

Refused: as `run`.";

/// What `twin` reads and prints.
pub(crate) const ABOUT_TWIN: &str = "\
Reads standard input: ttd twin --event K --side low < FILE
A script, as `run` reads it. Its twin for event K, a reading, is a run that the machine cannot tell
from it by what it saw up to there, and in which the true time lies at the chosen end of that
reading: so no narrower interval would be right.

Prints the twin's events, one a line, and then `reading LO HI truth T`.

Example:
  ttd twin --event 10 --side low < examples/one-liar.toml

Refused:
  1603, 1301 to 1305  as `run`
  1401                event K gives no reading
  1402                the chosen end is past the greatest time";

/// What `picture` reads and prints.
pub(crate) const ABOUT_PICTURE: &str = "\
Reads standard input: ttd picture < FILE
A script, as `run` reads it.

Prints its run as an SVG document: true time across, each machine's readings as bands around it,
fusions, commits from arrival to release, and lies.

Example:
  ttd picture < examples/one-liar.toml > run.svg

Refused: as `run`.";

/// What `live` reads and prints.
pub(crate) const ABOUT_LIVE: &str = "\
Reads standard input: ttd live < FILE
A script with one machine and a table `[live]`. Runs that machine: the masters of its sources over
UDP, its daemon, and a client for each of its sessions over TCP, all on 127.0.0.1.

Prints `readings N` and `wrong N`. The status is 3 where a reading was wrong, and 4 where a device
failed: 1604 in reading, 1605 in writing, 1501 a link, 1502 a clock, 304 a reference.

Example:
  ttd live < examples/live.toml

Refused:
  1603, 1301 to 1305  as `run`
  1302                also: there is no table `[live]`
  1303                also: not one machine, one master per source and one session per worker
  1, 802, 804         out of memory, a fusion was refused, no place for a reader";

/// What `judge` reads and prints.
pub(crate) const ABOUT_JUDGE: &str = "\
Reads standard input, at most 1 GiB: ttd judge < FILE
A history: a line `commit BEGAN ENDED STAMP` for each commit, in any order; the times at which it
began and ended are by one clock, and BEGAN is at most ENDED. A line may go on with SHARD TERM: the
shard of the commit, and the term of the shard's leader in which it was made.

Prints `commits N` and `violations N`, how many commits have a stamp that is not above that of some
commit that ended before they began; and where there is one `first LATER EARLIER`: the line of the
one that began first, and the line of the one that it contradicts. If some commit names a shard, it
also prints `term_violations N`, how many commits have a stamp that is not above that of some commit
of an earlier term of their shard, and `equal_stamps N`, how many have the stamp of an earlier line
of their shard; and where there is one `first_term LATER EARLIER` and `first_equal LATER EARLIER`,
of the lowest such line. The status is 3 if one of these counts is not 0.

Example:
  printf 'commit 10 20 7\\ncommit 30 40 6\\n' | ttd judge
prints
  commits 2
  violations 1
  first 2 1

Refused:
  1603  a line is not such a line; standard error says which is the first";
