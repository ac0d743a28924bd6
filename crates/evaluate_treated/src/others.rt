//! Whether the words ask for what isn't understood beside `--treated`.

ghost use Rattle.std.specs.Prelude.{List};
ghost use Rattle.std.specs.Bool.{OnTrue, OnFalse};
ghost use Rattle.command_words.specs.Vocabulary.{Use, HoldsCall};
ghost use Rattle.evaluate_command.specs.Vocabulary.{evaluate_row};
ghost use Rattle.evaluate_treated.specs.Requests.{AskNoOther};

use command_words::values::Values;
use paired_values::has_plain_flag;

/// Whether nothing is asked for that isn't understood beside `--treated`.
pub fn is_alone(values: &Values<'_>) -> bool
    ensures yes { (uses : List Use) → HoldsCall evaluate_row uses values.now → OnTrue result (AskNoOther uses) }
    ensures no { (uses : List Use) → HoldsCall evaluate_row uses values.now → OnFalse result (AskNoOther uses → ⊥) }
{
    if has_plain_flag(values) {
        return false;
    }
    if values.flag("natural") {
        return false;
    }
    if values.option("set").is_some() {
        return false;
    }
    match values.option("through") {
        Some(_) => false,
        None => true,
    }
}
