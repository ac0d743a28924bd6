//! The laws that tie reading to the grammar as it is printed.

ghost use Rattle.std.specs.Prelude.{◌≡◌, List, ℕ, Some, Ok, Result};
ghost use Rattle.dag_reader.specs.Grammar.{Fault, Said};
ghost use Rattle.dag_reader.specs.Reading.{Says};
ghost use Rattle.dag_reader.specs.Syntax.{Text, text_says};
ghost use Rattle.dag_reader.specs.Spelled.{Spelled};

/// What is read is a text of the grammar that says so, and each such text is read.
pub fn the_grammar()
    ensures read { (bytes : List ℕ) (t : Text) (said : Said) → Spelled bytes t → text_says t ≡ Some said → Says bytes (Ok said) }
    ensures sound { (bytes : List ℕ) (said : Said) → Says bytes (Ok said) → (t : Text) × Spelled bytes t × (text_says t ≡ Some said) }
{}

/// Each text has one answer.
pub fn the_answers()
    ensures some { (bytes : List ℕ) → (r : Result Said Fault) × Says bytes r }
    ensures one { (bytes : List ℕ) (r v : Result Said Fault) → Says bytes r → Says bytes v → r ≡ v }
{}
