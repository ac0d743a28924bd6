//! What the commands over counts have in common: the levels of a cell as text, and when bytes hold counts.
#![tactic(auto)]

ghost use Rattle.count_answers.specs.Lines.{LevelsKeepToLine, LevelsAreToldApart};

mod cells;

pub use cells::{
    entries, level_text, number_at, push_assignment, push_assignments, push_level, separator,
};

/// What is printed of levels: no line feed, and of two levels never the same.
pub fn laws()
    ensures line { LevelsKeepToLine }
    ensures apart { LevelsAreToldApart }
{}
