//! Rows on trees of formulas.

ghost use Rattle.std.specs.Prelude.{◌≡◌, length, None};
ghost use Rattle.prob_expr.specs.Vocabulary.{fault_in, formula_view};

use answer_json::Object;
use case_rows::{names, text};
use expr_text::read_formula;
use formula_json::{push_definitions, push_main};
use mixed_graph::Names;
use prob_expr::{Formula, check};
use serde_json::Value;
use std::alloc::{AllocError, Global};

/// The line of a formula: its tree, and those of its definitions.
fn tree_line(alloc: Global, f: &Formula, names: &Names) -> Result<Vec<u8>, AllocError>
    requires { fault_in (length names.now) (formula_view f.now) ≡ None }
{
    let mut object = Object::new(alloc)?;
    object.key("tree")?;
    push_main(&mut object, names, f)?;
    object.key("definition_trees")?;
    push_definitions(&mut object, names, f)?;
    object.line()
}

/// The line of a formula that has no fault.
fn checked_line(alloc: Global, f: &Formula, names: &Names) -> Option<Vec<u8>> {
    match check(f, names.count()) {
        Ok(()) => tree_line(alloc, f, names).ok(),
        Err(_) => None,
    }
}

/// The tree of the formula that a text is.
fn read_line(alloc: Global, text: &[u8], names: &Names) -> Option<Vec<u8>> {
    match read_formula(alloc, text, names) {
        Ok(f) => checked_line(alloc, &f, names),
        Err(_) => None,
    }
}

/// The tree of a formula.
pub(crate) fn tree_row(alloc: Global, row: &Value) -> Option<String> {
    let names = names(alloc, row, "names")?;
    let line = read_line(alloc, text(row, "text").as_bytes(), &names)?;
    String::from_str(alloc, str::from_utf8(&line).ok()?).ok()
}
