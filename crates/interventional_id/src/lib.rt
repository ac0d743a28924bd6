//! Interventional effects (Didelez, Dawid and Geneletti 2006; VanderWeele, Vansteelandt and Robins 2014): y under do(x), where mediators are drawn
//! as they are distributed under another value of x.
//!
//! `interventional(alloc, &graph, x, m, y, z)` gives a formula for each of the two effects of which such an effect is made, where both have one.
#![tactic(auto)]

mod answer;
mod identifying;
mod theory;

pub use answer::Interventional;
pub use identifying::interventional;
pub use theory::laws;
