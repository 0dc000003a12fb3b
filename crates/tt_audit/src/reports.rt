//! Reports of runs.

use std::marker::Model;
use tt_world::Breach;

/// A suspect of a publication: a source whose span does not meet the fused span. Machines and sources are counted from
/// 0, the publications of a machine from 1, over all its lives.
#[derive(Clone, Copy, Debug, PartialEq, Eq)]
pub struct Suspect {
    pub machine: u8,
    pub publication: u64,
    pub source: u8,
}

/// The first event that breaks the assumptions, counted from 0 over all events, and what it breaks on which machine.
#[derive(Clone, Copy, Debug, PartialEq, Eq)]
pub struct Broken {
    pub event: u64,
    pub breach: Breach,
}

/// The report of an audit of a run.
#[derive(Debug, Drop)]
pub struct Report {
    /// How many events there were.
    pub events: u64,
    /// How many of them were refused.
    pub refused: u64,
    /// How many publications were made.
    pub fusions: u64,
    /// How many readings were given.
    pub readings: u64,
    /// How many of them did not hold the true time.
    pub wrong: u64,
    /// How many commits were released.
    pub released: u64,
    /// How many stamps are out of order: each is no greater than the stamp of a commit that was released before its own
    /// commit arrived.
    pub violations: u64,
    /// The suspects of each publication, ascending; publications in the order of their events.
    pub suspects: Vec<Suspect>,
    /// The first event that breaks the assumptions, or None if they were kept.
    pub broken: Option<Broken>,
}

impl Model for Report {
    ghost use Rattle.tt_audit.specs.Report.{RunReport};

    ghost Value = { RunReport };

    ghost view = { λ r. record {
      events = r.events;
      refused = r.refused;
      fusions = r.fusions;
      readings = r.readings;
      wrong = r.wrong;
      released = r.released;
      violations = r.violations;
      suspects = r.suspects.items;
      broken = r.broken;
    } };
}
