//! What commands have in common that ask with primed names: how many names there are, how such a question is refused, and its joint effect.
//!
//! `are_too_many(&graph, x)` counts the names, `refuse_acted_on(alloc, sentence, name)` and `refuse_many(alloc, sentence)` are the replies that refuse, and
//! `push_joint(&mut object, &names, x, y)` adds the member of the effect of x on y and what is given together.
#![tactic(auto)]

mod counting;
mod joint;
mod refusing;

pub use counting::are_too_many;
pub use joint::push_joint;
pub use refusing::{refuse_acted_on, refuse_many};
