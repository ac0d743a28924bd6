//! Whether the words ask for an effect as it is.

ghost use Rattle.std.specs.Prelude.{List};
ghost use Rattle.std.specs.Bool.{OnTrue, OnFalse};
ghost use Rattle.command_words.specs.Vocabulary.{Use, HoldsCall};
ghost use Rattle.evaluate_command.specs.Requests.{evaluate_row, AskPlainly};

use command_words::values::Values;

/// Whether the words ask for an effect as it is: not among those who were treated, and not through mediators.
pub fn is_plain(values: &Values<'_>) -> bool
    ensures yes { (uses : List Use) → HoldsCall evaluate_row uses values.now → OnTrue result (AskPlainly uses) }
    ensures no { (uses : List Use) → HoldsCall evaluate_row uses values.now → OnFalse result (AskPlainly uses → ⊥) }
{
    if values.flag("treated") {
        return false;
    }
    if values.flag("natural") {
        return false;
    }
    match values.option("through") {
        Some(_) => false,
        None => true,
    }
}
