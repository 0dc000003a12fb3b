//! What a machine sees at a look: the spans of its sources as bars on one scale, the fused one, the width over time, and
//! what an operator may have to act on.
//!
//! All of it is functions over values: no file, no terminal and no socket is used here.
//!
//! - `views`: [`View`] and [`SourceView`], what is shown.
//! - `pictures`: [`push_view`], the picture as text. `svgs`: [`push_svg`], the same as SVG; `charts`, `histories`: its parts, and
//!   `rulers`: where they stand. `drawings`: [`push_drawing`], a part of a page that shows it.
//! - `reading`: [`read_view`], a view from the texts of the status and of the evidence. `fields`: numbers in these texts. `faults`: why
//!   there is no view.
//! - `widths`: [`Widths`], those of the last ten minutes.
//! - `forms`: [`Form`], how it is drawn. `heads`, `rows`, `signs`: its lines. `rises`: [`Past`], when a count rose last. `lines`: [`lines_of`]. `bars`, `sparks`, `pieces`: what a line is made of.
#![tactic(auto)]

mod bars;
mod charts;
mod drawings;
mod faults;
mod fields;
mod forms;
mod heads;
mod histories;
mod lines;
mod pictures;
mod pieces;
mod reading;
mod rises;
mod rows;
mod rulers;
mod signs;
mod sparks;
mod svgs;
mod views;
mod widths;

pub use drawings::push_drawing;
pub use faults::ViewFault;
pub use forms::{Form, MAX_COLUMNS, MIN_COLUMNS};
pub use histories::STEPS;
pub use lines::lines_of;
pub use pictures::push_view;
pub use reading::read_view;
pub use rises::Past;
pub use svgs::push_svg;
pub use views::{Broke, CommitCounts, Life, SignCounts, SourceView, View};
pub use widths::Widths;
