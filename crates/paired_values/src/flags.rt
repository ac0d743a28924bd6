//! Whether the words ask for what only an effect as it is understands.

ghost use Rattle.std.specs.Prelude.{List};
ghost use Rattle.std.specs.Bool.{OnTrue, OnFalse};
ghost use Rattle.command_words.specs.Vocabulary.{Use, HoldsCall};
ghost use Rattle.evaluate_command.specs.Vocabulary.{evaluate_row};
ghost use Rattle.paired_values.specs.Flags.{HaveNoPlainFlag};

use command_words::values::Values;

/// Whether a flag is there that isn't understood where x has two levels at once.
pub fn has_plain_flag(values: &Values<'_>) -> bool
    ensures yes { (uses : List Use) → HoldsCall evaluate_row uses values.now → OnTrue result (HaveNoPlainFlag uses → ⊥) }
    ensures no { (uses : List Use) → HoldsCall evaluate_row uses values.now → OnFalse result (HaveNoPlainFlag uses) }
{
    if values.flag("back-door") {
        return true;
    }
    if values.flag("zero") {
        return true;
    }
    if values.flag("matched") {
        return true;
    }
    if values.flag("short") {
        return true;
    }
    false
}
