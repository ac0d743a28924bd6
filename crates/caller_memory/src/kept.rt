//! A diagram that is read once and asked many times, in the caller's memory: the graph as it was read, its observed graph, and its
//! names as lines.
//!
//! `KeptDiagram::read(alloc, text)` reads a graph text. `kept.observed.separation(x, y, given)` says whether two sets are separated,
//! and `kept.diagram(alloc, lines)` gives the diagram with its names.
mod asking;
mod drawing;
mod kept;
mod naming;
mod reading;

pub use asking::{Adjustment, Identification, Separation};
pub use kept::{KeptDiagram, KeptGraph};
pub use naming::NamesFault;
pub use reading::{KeepFault, ReadDiagram};
