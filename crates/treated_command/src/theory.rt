//! That the form of an answer doesn't change its outcome.

ghost use Rattle.treated_command.specs.Laws.{FormsAgree};

/// Answers in any two forms, of which one may be a certificate, have one outcome.
pub fn laws()
    ensures { FormsAgree }
{}
