//! The command `implications`: the pairs of observed vertices that some set separates, and how far counts are from each.
//!
//! `pairs_reply(alloc, &diagram, format)` lists the pairs. With counts `counted_pairs` finds them, and `differences_reply`
//! adds the largest difference of the counts to each.
#![tactic(auto)]

mod answer;
mod differences;
mod fault;
mod lines;
mod listing;
mod objects;
mod reply;
mod request;
mod used;

pub use answer::Answer;
pub use differences::Measured;
pub use fault::CountsFault;
pub use lines::push_pair;
pub use listing::{PairsOrReply, counted_pairs, pairs_answer, pairs_reply};
pub use objects::push_broken;
pub use reply::{differences_answer, differences_reply, long_counts};
pub use request::{ROW, Request};
