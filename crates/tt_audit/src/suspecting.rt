//! The suspects of all publications of a run.

ghost use Rattle.std.specs.Prelude.{◌≡◌, ◌+◌, [], ◌++◌, map, length, IfOk, OnOk, slice_index_or};
ghost use Rattle.tt_world.specs.Trace.{outline};
ghost use Rattle.tt_audit.specs.Suspects.{AreAllSuspects, suspects_named, publications_by};
ghost use Rattle.tt_audit.specs.declared.reports.Suspect.{Suspect};

use crate::reports::Suspect;
use std::alloc::{AllocError, Global};
use tt_fuse::suspects;
use tt_world::Shown;

/// The suspects of the publications, in the order of these: for each, the sources whose span does not meet its fused
/// span, ascending, with the number of the publication over all lives of its machine.
pub(crate) fn all_suspects(alloc: Global, shown: &[Shown]) -> Result<Vec<Suspect>, AllocError>
    ensures { IfOk result (λ v. AreAllSuspects [] (map outline shown.now) v.items) }
{
    let mut found = Vec::new(alloc);
    let mut published = [0u64; 256];
    for publication in shown {
        let machine = publication.machine;
        let place = usize::from(machine);
        let number = published[place] + 1;
        published[place] = number;
        let fused = &publication.fused;
        let sources = suspects(fused.spans(), &fused.span());
        push_all(&mut found, machine, number, sources.as_slice())?;
    }
    Ok(found)
}

/// Adds these sources as suspects of a publication.
fn push_all(
    found: &mut Vec<Suspect>,
    machine: u8,
    publication: u64,
    sources: &[u8],
) -> Result<(), AllocError>
    ensures { OnOk result (found.new.items ≡ found.old.items
        ++ map (λ source. record { machine = machine; publication = publication; source = source }) sources.now) }
{
    for source in sources {
        found.push(Suspect {
            machine,
            publication,
            source: *source,
        })?;
    }
    Ok(())
}
