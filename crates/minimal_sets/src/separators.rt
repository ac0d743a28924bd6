//! Minimal vertex separators of an undirected graph: the closest to a side, and the listing of all.
mod branching;
mod floods;
mod listing;
mod problem;
mod sorting;
mod steps;

pub use floods::beside;
pub use listing::{Listing, list_separators};
pub use problem::SeparationProblem;
pub use steps::Steps;
