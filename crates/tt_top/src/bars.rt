//! Bars: spans on a scale.

ghost use Rattle.std.specs.Prelude.{◌≡◌, ◌++◌, ◌<◌, ◌≤◌, OnOk, string_bytes};
ghost use Rattle.tt_span.specs.Time.{max_time};
ghost use Rattle.tt_top.specs.Bar.{Reach, reach_with, reach_of as reach_of_all, scale_over, edge_of, mark_word, cell_text, bar_text};

use crate::views::SourceView;
use std::alloc::AllocError;
use tt_span::Span;

/// What the columns of a bar show: column c the times from `start + c * step` on, and before those of column c + 1. All in
/// nanoseconds.
#[derive(Clone, Copy)]
pub(crate) struct Scale {
    pub(crate) start: u64,
    pub(crate) step: u64,
    pub(crate) columns: u64,
}

/// What a bar is drawn with.
#[derive(Clone, Copy)]
pub(crate) enum Mark {
    /// A source's span.
    Source,
    /// A suspect's span.
    Suspect,
    /// The fused span.
    Fused,
    /// A source that has never answered.
    Unknown,
    /// A source where there is no evidence.
    Absent,
}

impl Mark {
    /// The character for it.
    fn word(self) -> &'static str
        ensures { result.now ≡ mark_word self }
    {
        match self {
            Mark::Source => "=",
            Mark::Suspect => "x",
            Mark::Fused => "#",
            Mark::Unknown => "?",
            Mark::Absent => " ",
        }
    }
}

/// A span on a scale. Without a span every column has the mark.
#[derive(Clone, Copy)]
pub(crate) struct Bar {
    pub(crate) scale: Scale,
    pub(crate) mark: Mark,
    pub(crate) span: Option<Span>,
}

/// The times that have to be on a scale.
#[derive(Clone, Copy)]
pub(crate) struct Reach {
    pub(crate) lo: u64,
    pub(crate) hi: u64,
}

impl Reach {
    /// The times that have to be on a scale: the fused span, and those of the sources that are no suspects.
    pub(crate) fn of(fused: &Span, sources: &[SourceView]) -> Reach
        ensures value { result ≡ reach_of_all fused.now sources.now }
        ensures in_time { result.hi ≤ max_time }
    {
        let mut reach = Reach {
            lo: fused.lo(),
            hi: fused.hi(),
        };
        for source in sources {
            reach = reach.with(source);
        }
        reach
    }

    /// The same with another source.
    fn with(self, source: &SourceView) -> Reach
        ensures value { result ≡ reach_with self source.now }
        ensures in_time { self.hi ≤ max_time → result.hi ≤ max_time }
    {
        match source.span {
            Some(span) if !source.suspect => Reach {
                lo: self.lo.min(span.lo()),
                hi: self.hi.max(span.hi()),
            },
            _ => self,
        }
    }
}

impl Scale {
    /// The scale of so many columns on which these sources and the fused span stand, with two columns free at each end.
    pub(crate) fn over(fused: &Span, sources: &[SourceView], columns: u64) -> Scale
        requires { 13 ≤ columns }
        ensures { result ≡ scale_over (reach_of_all fused.now sources.now) columns }
    {
        let reach = Reach::of(fused, sources);
        let step = reach.hi.saturating_sub(reach.lo) / (columns - 4) + 1;
        Scale {
            start: reach.lo.saturating_sub(2 * step),
            step,
            columns,
        }
    }

    /// The first time of a column.
    fn edge(self, column: u64) -> u128
        ensures { result ≡ edge_of self column }
    {
        u128::from(self.start) + u128::from(column) * u128::from(self.step)
    }
}

impl Bar {
    /// What a column shows: the mark where some time of the column lies in the span, an arrow in the first and the last one
    /// where the span goes on beyond them, and else a blank.
    fn cell(self, column: u64) -> &'static str
        requires { column < self.scale.columns }
        ensures { result.now ≡ cell_text self column }
    {
        let Some(span) = self.span else {
            return self.mark.word();
        };
        let from = self.scale.edge(column);
        let to = self.scale.edge(column + 1);
        if column == 0 && u128::from(span.lo()) < from {
            "<"
        } else if column + 1 == self.scale.columns && to <= u128::from(span.hi()) {
            ">"
        } else if u128::from(span.lo()) < to && from <= u128::from(span.hi()) {
            self.mark.word()
        } else {
            " "
        }
    }

    /// Writes the bar at the end of the text.
    pub(crate) fn push(&self, text: &mut String) -> Result<(), AllocError>
        ensures { OnOk result (string_bytes text.new ≡ string_bytes text.old ++ bar_text self.now) }
    {
        for column in 0..self.scale.columns {
            text.push_str(self.cell(column))?;
        }
        Ok(())
    }
}
