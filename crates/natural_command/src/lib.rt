//! The command `natural`: what y would be under do(x), were mediators as under another value of x.
#![tactic(auto)]

mod another;
mod answer;
mod asking;
mod effects;
mod fault;
mod objects;
mod reply;
mod request;
mod second;
mod texts;
mod theory;

pub use answer::{Answer, Asked};
pub use asking::Question;
pub use effects::{effect_text, push_group};
pub use fault::NaturalFault;
pub use objects::push_asked;
pub use reply::{asked_by, natural_answer, natural_reply};
pub use request::{ROW, Request};
pub use second::names_read;
pub use texts::district_effect;
pub use theory::laws;
