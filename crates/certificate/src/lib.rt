//! Certificates of answers, as JSON texts.
//!
//! A certificate is one object, in compact form with its members sorted by key:
//!
//! | Key | Value |
//! |---|---|
//! | `answer` | `"formula"` or `"hedge"` |
//! | `version` | 1, or 2 where `given` stands |
//! | `x`, `y` | lists of names in index order |
//! | `given` | a list of names in index order, which isn't empty; in version 2 alone |
//!
//! That of a formula has further
//!
//! | Key | Value |
//! |---|---|
//! | `formula`, `defs` | the text of the main expression; a list of the definitions' texts |
//! | `lemmas` | a list of `[set, step]` |
//! | `main` | a step |
//!
//! and that of a hedge, which is of version 1,
//!
//! | Key | Value |
//! |---|---|
//! | `big`, `small`, `roots` | lists of names in index order |
//! | `choice` | a list of `[vertex, child]` in index order |
//! | `links` | a list of `[start]` and then `[found, partner]` |
//!
//! One of version 3 is of a counterfactual effect in parts:
//!
//! | Key | Value |
//! |---|---|
//! | `answer` | `"treated"` or `"natural"` |
//! | `version` | 3 |
//! | `x`, `y`, `given` | lists of names in index order; only what is given may be empty |
//! | `through` | a list of names in index order, which isn't empty: the mediators of `"natural"` |
//! | `parts` | a list of objects, each with `district`, a list of names, and the four keys of a formula |
//!
//! `read_answer(alloc, text, &names)` gives the certificate that a text holds, and `read_part_answer` one in parts.
#![tactic(auto)]

mod fault;
mod formulas;
mod hedges;
mod keys;
mod parts;
mod reading;
mod sizes;
mod values;

pub use fault::{CertFault, Key};
pub use parts::read_part_answer;
pub use reading::read_answer;
pub use values::{Certificate, PartCertificate};
