//! What is known of one server.

ghost use Rattle.std.specs.Prelude.{◌≡◌, ◌↔◌, option_copied, max, min};
ghost use Rattle.tt_upstream.specs.Refusal.{meaning_of as meaning_of_fault};
ghost use Rattle.tt_upstream.specs.Server.{new_server, is_due_at, asked_at, forgotten, query_of, reading_of, news_read, news_at, learned, told, doubled as doubled_of, slowed, refused_as, refused_at, heard_as, heard_at, answer_of};

use crate::leaps::{Announced, announced_by, is_put_off};
use crate::news::{Asking, Known, News};
use crate::plans::Plan;
use crate::refusals::{Meaning, meaning_of};
use crate::tallies::Tally;
use std::marker::Model;
use tt_ntp::{NtpFault, PacketKey, Query, Reply, decode, decode_keyed};

/// The longest pause between requests: 131,072 s.
const LONGEST_PAUSE: u64 = 131_072_000_000_000;

/// What is known of one NTP server: at most one request that is awaited, and what its last reply that was taken said.
///
/// Clock readings are those of the machine's monotonic clock, in nanoseconds.
#[derive(Clone, Copy)]
pub struct Server {
    pub(crate) plan: Plan,
    pub(crate) pause: u64,
    pub(crate) due: u64,
    pub(crate) stopped: bool,
    pub(crate) refused: bool,
    pub(crate) waiting: Option<Asking>,
    pub(crate) known: Option<Known>,
    pub(crate) leap: Option<Announced>,
    pub(crate) tally: Tally,
}

impl Model for Server {
    ghost use Rattle.tt_upstream.specs.Server.{ServerState};

    ghost Value = { ServerState };

    ghost view = { λ s. record { plan = s.plan; pause = s.pause; due = s.due; stopped = s.stopped; refused = s.refused; waiting = s.waiting; known = s.known; leap = s.leap; tally = s.tally } };

    ghost inverse = { λ s. record { plan = s.plan; pause = s.pause; due = s.due; stopped = s.stopped; refused = s.refused; waiting = s.waiting; known = s.known; leap = s.leap; tally = s.tally } };
}

/// Twice the pause, at most the longest one, but never less than it was.
fn doubled(pause: u64) -> u64
    ensures { result ≡ doubled_of pause }
{
    pause.saturating_mul(2).min(LONGEST_PAUSE).max(pause)
}

/// What the bytes say as the reply to the query, under the key if there is one.
fn reading(bytes: &[u8], query: Query, key: Option<&PacketKey>) -> Result<Reply, NtpFault>
    ensures { result ≡ reading_of query (option_copied key.entry) bytes.now }
{
    match key {
        None => decode(bytes, query),
        Some(key) => decode_keyed(bytes, query, key),
    }
}

/// What the reply to this request tells that came at the clock reading `now`.
fn news_in(
    plan: Plan,
    asking: Asking,
    now: u64,
    read: Result<Reply, NtpFault>,
) -> Result<News, NtpFault>
    ensures { result ≡ news_read plan asking now read }
{
    let reply = read?;
    let Ok(statement) = reply.statement(plan.margin, asking.sent, now) else {
        return Err(NtpFault::PastMax);
    };
    let known = Known {
        statement,
        stratum: reply.stratum,
    };
    Ok(News {
        known,
        leap: reply.leap,
    })
}

impl Server {
    /// A server of which nothing is known. A request is due at once, and then each `plan.every` nanoseconds.
    pub fn new(plan: Plan) -> Server
        ensures { result ≡ new_server plan }
    {
        let pause = plan.every;
        Server {
            plan,
            pause,
            due: 0,
            stopped: false,
            refused: false,
            waiting: None,
            known: None,
            leap: None,
            tally: Tally::new(),
        }
    }

    /// Whether a request is due at the clock reading `now`. Never, once the server told this client to stop.
    pub fn is_due(&self, now: u64) -> bool
        ensures value { result ≡ is_due_at self.now now }
    {
        !self.stopped && self.due <= now
    }

    /// Notes that a request with this nonce was sent at the clock reading `now`. It is the one whose reply is awaited, and an
    /// earlier one no longer. The next request is due a pause later. What is known stays.
    pub fn ask(&mut self, nonce: u64, now: u64)
        ensures after { self.new ≡ asked_at self.old nonce now }
    {
        self.waiting = Some(Asking { nonce, sent: now });
        self.due = now.saturating_add(self.pause);
        self.tally = self.tally.with_request();
    }

    /// Drops what is known, and the request that is awaited, since the machine's clock no longer tells how old they are. A request
    /// is due at once, unless the server told this client to stop.
    pub fn forget(&mut self)
        ensures after { self.new ≡ forgotten self.old }
    {
        self.waiting = None;
        self.known = None;
        self.due = 0;
    }

    /// What the bytes tell that came at the clock reading `now`.
    fn news(&self, bytes: &[u8], key: Option<&PacketKey>, now: u64) -> Result<News, NtpFault>
        ensures { result ≡ news_at self.now.plan self.now.waiting (option_copied key.entry) bytes.now now }
    {
        let Some(asking) = self.waiting else {
            return Err(NtpFault::Origin);
        };
        let query = Query {
            nonce: asking.nonce,
            takes_local: self.plan.takes_local,
        };
        news_in(self.plan, asking, now, reading(bytes, query, key))
    }

    /// Takes what a reply tells, unless it is put off for a leap second.
    fn learn(&mut self, news: News)
        ensures { self.new ≡ told self.old news }
    {
        self.waiting = None;
        let span = news.known.statement.span();
        if is_put_off(self.leap, news.leap, span) {
            return;
        }
        self.refused = false;
        self.known = Some(news.known);
        self.leap = announced_by(news.leap, span);
        self.tally = self.tally.with_reply();
    }

    /// What a refusal makes of the server, but for the counts.
    fn refuse(&mut self, meaning: Meaning, now: u64)
        ensures { self.new ≡ refused_as self.old meaning now }
    {
        match meaning {
            Meaning::Stray => {}
            Meaning::TooOften => {
                self.waiting = None;
                self.pause = doubled(self.pause);
                self.due = now.saturating_add(self.pause);
            }
            Meaning::Stop => {
                self.waiting = None;
                self.stopped = true;
            }
            Meaning::NoTime => {
                self.waiting = None;
                self.refused = true;
                self.known = None;
            }
        }
    }

    /// Takes the bytes that came at the clock reading `now`: they are read as the reply to the request that is awaited, under
    /// the key if one is given.
    ///
    /// A reply is taken: its statement, with the margin of the plan, is known from now on. It is put off, and only ends the
    /// wait, where it reaches the last minute before a leap second that was announced, unless its lower end
    /// is above the end of that day, and an hour above it where the reply announces a leap second itself.
    ///
    /// Refuses as `decode` and `decode_keyed` do; with 2306 `Origin` where no request is awaited; and, behind all others, with
    /// 2318 `PastMax` where `now` is below the reading of the request or above `MAX_TIME`. After 2301 to 2306 nothing is
    /// changed but a count: they are no reply of the server to the request. Any other refusal ends the wait. 2307 `Rate`
    /// doubles the pause, to at most 131,072 s, and the next request is due that much later than `now`; what is known stays.
    /// After 2308 `Denied` and 2309 `Restricted` no request is ever due, and the server says nothing. After the others what was
    /// known is dropped.
    pub fn hear(&mut self, bytes: &[u8], key: Option<&PacketKey>, now: u64) -> Result<(), NtpFault>
        ensures heard { self.new ≡ heard_at self.old (option_copied key.entry) bytes.now now }
        ensures answer { result ≡ answer_of (news_at self.old.plan self.old.waiting (option_copied key.entry) bytes.now now) }
    {
        match self.news(bytes, key, now) {
            Ok(news) => {
                self.learn(news);
                Ok(())
            }
            Err(fault) => {
                let tally = self.tally.with_refusal(fault);
                self.refuse(meaning_of(fault), now);
                self.tally = tally;
                Err(fault)
            }
        }
    }
}
