//! That the form of an answer doesn't change its outcome.

ghost use Rattle.natural_command.specs.Laws.{FormsAgree};

/// Answers in any two forms, of which one may be certified, have one outcome.
pub fn laws()
    ensures { FormsAgree }
{}
