//! How a view is drawn.

ghost use Rattle.std.specs.Prelude.{◌≡◌, ◌≤◌, codes};
ghost use Rattle.tt_top.specs.Form.{bar_columns, is_old, is_wide, wide_word, red_word, plain_word};

/// The least number of columns that a picture has.
pub const MIN_COLUMNS: u64 = 64;

/// The greatest number of columns that a picture has.
pub const MAX_COLUMNS: u64 = 300;

/// A second, in nanoseconds.
const SECOND: u64 = 1_000_000_000;

/// How a view is drawn.
#[derive(Clone, Copy)]
pub struct Form {
    /// How many columns the picture has. Fewer than [`MIN_COLUMNS`] are that many, and more than [`MAX_COLUMNS`] are that
    /// many. Only the lines of signs may be longer.
    pub columns: u64,
    /// Whether it is in ASCII alone.
    pub ascii: bool,
    /// Whether suspects and signs are in red, by the sequences of a terminal.
    pub colour: bool,
    /// A source is called silent if its last answer is older than this, in nanoseconds.
    pub silent_after: u64,
    /// The widest reading that clients are given, in nanoseconds, if there is a limit and it is known.
    pub max_width: Option<u64>,
    /// How old the status is, in nanoseconds, if that is known.
    pub age: Option<u64>,
    /// The time, in nanoseconds since 1970.
    pub time: u64,
}

impl Form {
    /// How many columns a bar has: what the other parts of its line leave.
    pub(crate) fn bar(&self) -> u64
        ensures value { result ≡ bar_columns self.now }
        ensures least { 13 ≤ result }
        ensures most { result ≤ 249 }
    {
        self.columns.max(MIN_COLUMNS).min(MAX_COLUMNS) - 51
    }

    /// Whether the status is older than two rounds, and than a second.
    pub(crate) fn is_old(&self) -> bool
        ensures { result ≡ is_old self.now }
    {
        match self.age {
            Some(age) => age > (self.silent_after / 3 * 2).max(SECOND),
            None => false,
        }
    }

    /// Whether readings of this width, if there are any, are wider than the limit, if there is one.
    pub(crate) fn is_wide(&self, width: Option<u64>) -> bool
        ensures { result ≡ is_wide self.now width }
    {
        match (width, self.max_width) {
            (Some(width), Some(most)) => most < width,
            _ => false,
        }
    }

    /// The word for readings of this width where they are wider than the limit.
    pub(crate) fn wide_word(&self, width: Option<u64>) -> &'static str
        ensures { result.now ≡ wide_word self.now width }
    {
        if self.is_wide(width) { " wide" } else { "" }
    }

    /// What makes text red, where that is wanted.
    pub(crate) fn red(&self, wanted: bool) -> &'static str
        ensures { result.now ≡ red_word self.now wanted }
    {
        if self.colour && wanted {
            "\x1b[31m"
        } else {
            ""
        }
    }

    /// What ends red text, where that is wanted.
    pub(crate) fn plain(&self, wanted: bool) -> &'static str
        ensures { result.now ≡ plain_word self.now wanted }
    {
        if self.colour && wanted { "\x1b[0m" } else { "" }
    }
}
