//! How a [`Latest`] is shown to many watches. There are two copies of it, and readers take one without a lock.

ghost use Rattle.std.specs.Prelude.{◌≡◌, ◌<◌, ◌^◌, [], drop, Some, IfOk, IfSome, MatchResult};
ghost use mathlib.Core.List.{IsPrefix};
ghost use Rattle.left_right.specs.Sides.{view};
ghost use Rattle.tt_publish.specs.Shown.{source_of};

use crate::publications::Latest;
use atomic_table::{Join, Split};
use crossbeam_utils::rule::{Outcome, Protocol};
use left_right::Absorb;
use left_right::reader::Reader;
use left_right::writer::Writer;
use std::alloc::{AllocError, Global};
use std::marker::PhantomData;
use std::sync::Wait;

impl Absorb<Latest> for Latest {
    /// All that is known of the publications.
    type State = Latest;

    ghost state = { λ latest. latest };

    ghost applied = { λ latest next. next };

    ghost never_fails = { Unit {0} };

    /// Replaces what is known by what the operation knows.
    fn absorb_first(&mut self, operation: &Latest, _other: &Latest) -> Result<(), AllocError> {
        *self = operation.copied();
        Ok(())
    }

    /// The same, without a further copy.
    fn absorb_second(&mut self, operation: Latest, _other: &Latest) -> Result<(), Latest> {
        *self = operation;
        Ok(())
    }
}

/// The rule of what is shown: all that the writer and the readers know is of one `source`.
pub struct OneSource;

impl Protocol<Latest, Option<Latest>> for OneSource {
    ghost use Rattle.std.specs.Prelude.{None};
    ghost use Rattle.tt_publish.specs.Shown.{HasOneSource};

    ghost holds = { HasOneSource };

    ghost first = { None };
}

/// A step that looks at what is shown, or shows something.
pub struct See;

impl Outcome<Latest, Option<Latest>> for See {
    ghost use Rattle.tt_publish.specs.Shown.{Sees};

    ghost then = { Sees };
}

/// How the writer tells a reader what it knows.
pub struct Tell;

impl Split<Option<Latest>> for Tell {
    ghost left = { λ view. view };

    ghost right = { λ view. view };
}

impl Join<Option<Latest>> for Tell {
    ghost use Rattle.std.specs.Prelude.{None};

    ghost both = { λ mine told. told };

    ghost spent = { None };
}

/// The access of a watch to what is shown. It looks at one of the two copies, without a lock.
pub type LatestReader = Reader<Latest, Option<Latest>, OneSource>;

/// The access of a teller to what is shown. It changes the copy that is not shown, and then shows this copy.
pub type LatestWriter = Writer<Latest, Latest, Option<Latest>, OneSource>;

/// A writer that shows these publications to at most `readers` readers.
///
/// It shows them twice. A writer keeps at most two operations at a time, so the memory for all later operations is
/// taken here.
pub fn writer_of<R: Wait>(
    rt: &R,
    alloc: Global,
    latest: &Latest,
    readers: usize,
) -> Result<LatestWriter, AllocError>
    requires { (0 < readers) × (readers < 2 ^ 32) }
    ensures shows { IfOk result (λ writer. writer.desk.shown.value ≡ latest.now) }
    ensures idle { IfOk result (λ writer. drop writer.behind writer.log.items ≡ []) }
    ensures source { IfOk result (λ writer. source_of (view writer.desk.place) ≡ Some latest.now.source) }
{
    let mut writer: LatestWriter = Writer::new(alloc, latest.copied(), latest.copied(), readers)?;
    match writer.append(latest.copied()) {
        Ok(()) => {
            let (writer, shown) = show(rt, writer.publish_as::<See, R>(rt).0, latest);
            if shown.is_err() {
                writer.take(rt);
                return Err(AllocError);
            }
            Ok(writer)
        }
        Err(_) => {
            writer.take(rt);
            Err(AllocError)
        }
    }
}

/// Shows these publications. If an allocation failed, the writer shows what it showed before.
pub fn show<R: Wait>(
    rt: &R,
    mut writer: LatestWriter,
    latest: &Latest,
) -> (LatestWriter, Result<(), AllocError>)
    requires idle { drop writer.behind writer.log.items ≡ [] }
    requires source { source_of (view writer.desk.place) ≡ Some latest.now.source }
    ensures shows { MatchResult result.1 (λ _. result.0.desk.shown.value ≡ latest.now) (λ _. result.0.desk.shown.value ≡ writer.desk.shown.value) }
    ensures idle { drop result.0.behind result.0.log.items ≡ [] }
    ensures source { source_of (view result.0.desk.place) ≡ Some latest.now.source }
{
    match writer.append(latest.copied()) {
        Ok(()) => (writer.publish_as::<See, R>(rt).0, Ok(())),
        Err(_) => (writer, Err(AllocError)),
    }
}

/// A reader of what the writer shows. None if no reader slot is free.
pub fn reader_of(writer: &mut LatestWriter) -> Option<LatestReader>
    ensures reader { IfSome result (λ reader. view reader.place ≡ view writer.old.desk.place) }
    ensures shows { writer.new.desk.shown.value ≡ writer.old.desk.shown.value }
    ensures idle { drop writer.new.behind writer.new.log.items ≡ drop writer.old.behind writer.old.log.items }
    ensures source { view writer.new.desk.place ≡ view writer.old.desk.place }
{
    let mut reader = writer.factory().reader().ok()?;
    reader.learn::<Tell>(writer.tell::<Tell>());
    Some(reader)
}

/// A sign that a watch looked at what is shown. Only [`look`] makes it.
#[derive(Drop)]
pub struct Looked {
    marker: PhantomData<()>,
}

/// Looks at what is shown, and learns it if it is more than `latest` knows. If the writer is gone, nothing is learned.
pub fn look(reader: LatestReader, latest: &mut Latest) -> (LatestReader, Looked)
    requires { source_of (view reader.place) ≡ Some latest.old.source }
    ensures place { source_of (view result.0.place) ≡ Some latest.old.source }
    ensures source { latest.new.source ≡ latest.old.source }
    ensures seen { IsPrefix latest.old.items latest.new.items }
{
    let reader = match reader.enter_as::<See>() {
        Ok(reading) => {
            latest.learn(reading.get());
            reading.leave()
        }
        Err(reader) => reader,
    };
    let marker = PhantomData;
    (reader, Looked { marker })
}
