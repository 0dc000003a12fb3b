//! What a line asks a table of pending commits.

ghost use Rattle.std.specs.Prelude.{◌≡◌, IfSome};
ghost use Rattle.tt_stamp_rows.specs.Call.{Asks};

use tt_publish::Reading;
use tt_span::Span;
use tt_text::numbers_behind;

/// What a table of pending commits is asked. All numbers are nanoseconds.
#[derive(Drop)]
pub enum Call {
    /// To be empty.
    Open,
    /// To begin a commit by this reading, with this floor.
    Begin(Reading, u64),
    /// To take the commit with this stamp as written, or as given up.
    End(u64),
    /// For the watermark, by a reading with this earliest.
    Watermark(u64),
    /// Whether a snapshot at this time may be read, by a reading with this earliest.
    Readable(u64, u64),
    /// Whether the commit with this stamp may be told, by a reading with this earliest.
    Release(u64, u64),
}

impl Call {
    /// What this line asks, which is given with its line feed. None if it is none of `table`, `begin LO HI FLOOR`,
    /// `written STAMP`, `given_up STAMP`, `watermark EARLIEST`, `readable T EARLIEST` and `release STAMP EARLIEST`, or
    /// if the ends of the reading are those of no span.
    pub fn by_line(line: &[u8]) -> Option<Call>
        ensures { IfSome result (λ call. Asks line.now call) }
    {
        if let Some(numbers) = numbers_behind(b"table", line)
            && numbers.is_empty()
        {
            return Some(Call::Open);
        }
        if let Some(numbers) = numbers_behind(b"begin", line)
            && let [lo, hi, floor] = *numbers.as_slice()
        {
            return Some(Call::Begin(Reading::of(Span::new(lo, hi).ok()?), floor));
        }
        if let Some(stamp) = Call::ended_by(line) {
            return Some(Call::End(stamp));
        }
        Call::by_question(line)
    }

    /// The stamp of the commit that this line says to be written or given up.
    fn ended_by(line: &[u8]) -> Option<u64>
        ensures { IfSome result (λ s. Asks line.now (Call.End s)) }
    {
        if let Some(numbers) = numbers_behind(b"written", line)
            && let [stamp] = *numbers.as_slice()
        {
            return Some(stamp);
        }
        if let Some(numbers) = numbers_behind(b"given_up", line)
            && let [stamp] = *numbers.as_slice()
        {
            return Some(stamp);
        }
        None
    }

    /// What this line asks that changes nothing.
    fn by_question(line: &[u8]) -> Option<Call>
        ensures { IfSome result (λ call. Asks line.now call) }
    {
        if let Some(numbers) = numbers_behind(b"watermark", line)
            && let [earliest] = *numbers.as_slice()
        {
            return Some(Call::Watermark(earliest));
        }
        if let Some(numbers) = numbers_behind(b"readable", line)
            && let [t, earliest] = *numbers.as_slice()
        {
            return Some(Call::Readable(t, earliest));
        }
        if let Some(numbers) = numbers_behind(b"release", line)
            && let [stamp, earliest] = *numbers.as_slice()
        {
            return Some(Call::Release(stamp, earliest));
        }
        None
    }
}
