//! A run of a program: its words name a command, whose inputs are read, and whose answer is written. The commands are the program's.
//!
//! What words ask of a program is a type with the trait `Request`, which says what the commands are. `run` and `run_surely` run any such program;
//! `reply_to` gives the reply alone, also on a diagram that is at hand.
#![tactic(auto)]

mod lines;
mod ready;
mod replying;
mod request;
mod sure;
mod top;
mod words;

pub use lines::{line_of, shown};
pub use ready::Ready;
pub use replying::or_memory;
pub use request::{AfterFile, AfterWords, Request, SecondInput};
pub use sure::run_surely;
pub use top::{Status, reply_to, run};
pub use words::read_request;
