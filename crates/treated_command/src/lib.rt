//! The command `treated`: what y would be under do(x), among those for whom x was observed.
#![tactic(auto)]

mod answer;
mod fault;
mod objects;
mod reply;
mod request;
mod texts;
mod theory;

pub use answer::{Answer, Asked};
pub use fault::TreatedFault;
pub use reply::{primes_of, treated_answer, treated_reply};
pub use request::{ROW, Request};
pub use texts::effect_text;
pub use theory::laws;
