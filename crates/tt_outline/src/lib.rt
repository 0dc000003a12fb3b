//! What a machine would do, as text: what `ttd serve --check` prints of its settings.
//!
//! ```text
//! let settings = tt_settings::read(alloc, text)?;    // the text of the configuration file
//! let would = outline(alloc, &settings)?;
//! ```
//!
//! It reads settings alone, and no file, name or clock. The text has one line for each setting, and lines for what follows
//! from them: which rates of a clock the drift covers,
//! how wide readings become, how many threads and descriptors there are, and about how much memory they take.
//!
//! - `outlines`: [`outline`]. `rates`: which rates of a clock a drift covers.
#![tactic(auto)]

mod outlines;
mod rates;

pub use outlines::outline;
