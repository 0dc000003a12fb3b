//! The texts of the help after the options of each service.

/// What `master` does.
pub(crate) const ABOUT_MASTER: &str = "\
Answers polls of TTP1 and TTP2 over UDP until it is ended, each with the interval in which the true
time lies. It writes one line to standard error when it begins, and one when its socket or its clock
fails, at most one in ten seconds. An answer that can't be sent is lost. Nothing is read from
standard input.

The interval is right as far as what it stands on is, which is one of two:
  --uncertainty  this computer's real-time clock, moved by --offset, and what you say that it may be
                 wrong by, both ways. --offset and --act go with it. With --phc it is a hardware
                 clock, such as that of a network card which ptp4l keeps, less --tai-offset. It is
                 silent once a clock was stepped, or can't be as near to true time as you say while
                 this computer's oscillator keeps --drift; it is started again then.
  --ntp          NTP servers, up to 16, each with an --ntp of its own, by its IPv4 or IPv6 address
                 and a port. Each reply says how wrong its server may be; the interval widens by
                 --drift from reply to reply. A server says nothing before its first reply, when its
                 last reply is older than --max-age, when that is refused, and around a leap second.
                 --faulty, --margin, --every, --max-age, --ntp-key, --ntp-keys and --local go with
                 it.
With --faulty N, at most N of the servers may be wrong; there are more than twice as many servers.
No poll is answered while more than N servers say nothing, or while they disagree. --margin widens
each reply, against a server that is wrong by more than it says. A server is asked each --every.
After its answer RATE it is asked half as often, and after DENY or RSTR never again. With --ntp-key
and --ntp-keys requests are signed by SHA-1 or SHA-256, and a reply that is not is dropped. --local
takes a server that has no source of time but its own clock. A TIME is a number with its unit: ns,
us, ms or s. With --warn-width the log warns of answers that are wider.

Without --keys only senders on this host are answered. With --keys it answers, from any address,
polls that are sealed under a key of the file, and nothing else; each answer is sealed under the key
of its poll. A line of the file is ID HEX64 or ID HEX64 NAME, as `ttd key` makes it; the file is the
user's own, and its mode 0600 or 0400. It is read again when it has changed, within about a second.
If it is refused then, the keys stay as they were, and the log says why.

--listen takes an IPv4 or IPv6 address in its one spelling. Name the address that machines ask, not
0.0.0.0 or [::]: an answer that comes from another address is no answer. An address that this host
does not have yet is waited for. With --status it writes its status once a second: its answers by
key, and the packets that it dropped. With --http it gives that at /metrics; /health is 200 while
polls are answered, else 503 with the reason: a number from 2401 to 2407, clock_stepped, status_none
or status_old, when the status is older than ten seconds. No poll waits for a reader of these pages.

Acts, for tests: honest (which it is without --act), silent, garbage, repeat, 'ahead N' and
'behind N', N in nanoseconds.

Examples:
  ttd master --source 0 --listen 127.0.0.1:7001 --uncertainty 1000000
  ttd master --source 0 --listen 10.0.0.1:7001 --uncertainty 1000000 --keys /etc/truetime/keys
  ttd master --source 0 --listen 127.0.0.1:7001 --phc /dev/ptp0 --tai-offset 37 --uncertainty 10000
  ttd master --source 0 --listen 127.0.0.1:7001 --ntp 127.0.0.1:123 --http 127.0.0.1:9561
  ttd master --source 0 --listen 127.0.0.1:7001 --ntp 10.0.0.5:123 --ntp 10.0.0.6:123
    --ntp [fd00::7]:123 --faulty 1 --every 64s --margin 100000 --warn-width 50000000

Refused:
  1601          invalid arguments: neither or both of --uncertainty and --ntp, an option that goes
                with the other, a server twice, too many that are faulty; standard error says which
  1805          --listen is outside this host, and there is no --keys
  2211          the file of keys can't be read; the status is 4
  2212, 2213    its mode is neither 0600 nor 0400, or its owner is another user
  2214 to 2216  it is too long; a line is no key, or has the number of an earlier one
  1604          the file of --ntp-keys can't be read, or the clock of --phc not be opened; the status
                is 4
  1603          the file of --ntp-keys is too long or not UTF-8
  2411 to 2414  it has no line with the number of --ntp-key; that line is no key
  1829          the system gives no random bytes; the status is 4
  1831          the stack is limited to less than 2 MiB
  1501          a socket can't be had; the status is 4
  1830          the address of --http can't be listened at; the status is 4
  1816          a thread can't be started";

/// What `serve` does.
pub(crate) const ABOUT_SERVE: &str = "\
Runs one machine by its configuration, at most 1048576 bytes of TOML: it polls its masters, fuses
their answers, and serves clients, until it is ended. With --until-eof it ends in order when
standard input ends. With --check it prints what it would do and what it finds, the keys and the
addresses of names among it, refuses what a start would refuse of these files, and ends. It changes
nothing, and the machine may be running.

When it notices that one of its assumptions is broken, it says so and ends itself; the status is 3,
or 2 with `on_break = \"stay\"` in the configuration. With `\"warn\"` it only says so.

Example:
  ttd serve node.toml

Refused:
  1601          invalid arguments
  1604          the file is not a regular one, or can't be read; the status is 4
  1603          the file is too long or not UTF-8
  1801 to 1806  the configuration: standard error says why
  1810          the configuration: a Unix socket, and one worker
  1817, 1818    the configuration: a path with two purposes, a master that is named twice
  1825, 1826    the configuration: `masters` and `[[master]]`, two masters with one key
  1807 to 1816  the server does not start: its sockets, epoch or threads; the status is 4 for 1807
                to 1809, 1811 and 1812
  1819          what is at the path of the Unix socket is not a socket
  1828          masters of IPv4 and of IPv6, or with a name, where one socket can't poll both
  1829          the system gives no random bytes; the status is 4
  1831          the stack is limited to less than 2 MiB
  1830          the address of `http` can't be listened at; the status is 4
  2211 to 2216  the file of keys, as with `ttd master`; 1827: it has no key with a number of `key`";

/// What `ask` does.
pub(crate) const ABOUT_ASK: &str = "\
Sends the words as one line, and prints the reply to it; without words, each line of standard input
in turn. The lines are now, after T, before T, commit ID FLOOR and lease LO HI.

A machine is named by its address, 127.0.0.1: and a port, or by the path of its Unix socket: a text
with a slash, or without a colon.

A line is sent again while the reply to a commit is `waiting`, and, at most --retry times, while it
is `refused 801`: nothing is published yet; at most 10000 times in all. The last reply is printed.

The status is 2 where a reply is `refused N`; standard error says what N means. Else it is 5 where a
last reply is still `waiting`. It is 4 where the connection fails, where no whole reply of at most
128 bytes comes in 30 seconds, and where a reply cannot be printed.

Examples:
  ttd ask 127.0.0.1:7101 commit 1 0
  ttd ask /run/truetime/socket now

Refused:
  1601  invalid arguments
  1805  the text has a colon and no slash, and is not 127.0.0.1: and a port
  1501  the connection can't be had, or failed; the status is 4
  1604  reading standard input failed; the status is 4";

/// What `read` does.
pub(crate) const ABOUT_READ: &str = "\
Prints `now EARLIEST LATEST`: the true time lies between them, in nanoseconds. Standard error says
`stale` where the machine that shares the file is late or gone; the reading is right all the same.

Example:
  ttd read /run/truetime/time

Refused:
  1601  invalid arguments
  801   nothing is published yet, or nothing any more
  802   the clock is below that of the publication
  803   the clock can't be read; the status is 4
  1701  the file can't be opened or read; the status is 4
  1702  it is not a shared file of this boot
  1703  no machine wrote what it holds
  1704  each try met another publication
  1708  the clock is past the last reading at which the publication may be used";

/// What `top` does.
pub(crate) const ABOUT_TOP: &str = "\
Shows what a machine sees, twice a second until a line of standard input begins with q, or it is
killed: how old that is, marked by ! beyond two rounds; the interval of each source as a bar on one
scale, with its offset, its round trip, its age and the ends of the fused interval that it holds;
the fused interval; the width of readings over time; commits; and a line for each sign that somebody
may have to act on. Counts of what is past have a time: within it the count rose, or was seen to
stay. With --once it shows this once, and with --svg it draws it once as SVG.

FILE is the configuration of the machine. It has to name `status`, and there are bars if it names
`evidence`. ADDRESS is 127.0.0.1: and the port that `http` of the configuration names. A text with a
slash, or without a colon, is the path of a file.

Without --columns it is as wide as COLUMNS says, or 80 columns, and at least 64. LINES says how many
lines it has at most. `truetime-top` takes both from the terminal, and ends at the key q. It is ASCII
unless the first of LC_ALL, LC_CTYPE and LANG that is set names UTF-8.

Examples:
  ttd top /etc/truetime/db.toml
  ttd top 127.0.0.1:9560 --once --columns 120
  ttd top /etc/truetime/db.toml --svg > now.svg

Refused:
  1601          invalid arguments, and columns outside 40 to 300
  1805          the text has a colon and no slash, and is not 127.0.0.1: and a port
  1603          the configuration is too long or not UTF-8
  1604          a file can't be read; the status is 4
  1801 to 1828  the configuration, as `ttd serve` refuses it; 1803 also if it has no `status`
  1501          the status can't be had over HTTP; the status is 4
  2601, 2602    what is read is not the status, or not the evidence, of a machine";

/// What `key` does.
pub(crate) const ABOUT_KEY: &str = "\
Prints a line for a file of keys: a number, 32 random bytes of the system in hexadecimal digits, and
the name. A machine and a master share a key, and no other pair has the same: put the line into the
files of both, which nobody else can read. The number, random without --id, says which key sealed a
message; the name is for the reader of the file.

Example:
  ttd key --name host-a.master-0 >> /etc/truetime/keys

Refused:
  1601  invalid arguments
  1829  the system gives no random bytes; the status is 4";
