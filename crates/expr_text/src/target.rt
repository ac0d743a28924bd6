//! The text of a target.

ghost use Rattle.std.specs.Prelude.{◌≡◌, ◌++◌, IfOk};
ghost use Rattle.prob_expr.specs.Vocabulary.{term_of, target_view};
ghost use Rattle.expr_text.specs.Write.{expr_in, text_of, latex_of};

use answer_text::{Notation, Term, push_term_in};
use mixed_graph::Names;
use prob_expr::Target;
use std::alloc::{AllocError, Global};

/// The target as a term.
fn term(target: &Target) -> Term
    ensures what { result.of.bits ≡ target.now.y.bits }
    ensures doing { result.doing.bits ≡ target.now.x.bits }
    ensures given { result.given.bits ≡ target.now.given.bits }
{
    Term {
        of: target.y,
        doing: target.x,
        given: target.given,
    }
}

/// A target in a notation: the term `P(Y|do(X))`, or `P(Y)` where X is empty.
pub fn target_in(
    alloc: Global,
    notation: Notation,
    target: &Target,
    names: &Names,
) -> Result<Vec<u8>, AllocError>
    ensures { IfOk result (λ v. v.items ≡ expr_in notation names.now (term_of (target_view target.now))) }
{
    let mut out = Vec::new(alloc);
    push_term_in(&mut out, notation, names, term(target))?;
    Ok(out)
}

/// The text of a target: the term `P(Y|do(X))`, or `P(Y)` where X is empty.
pub fn target_text(alloc: Global, target: &Target, names: &Names) -> Result<Vec<u8>, AllocError>
    ensures { IfOk result (λ v. v.items ≡ text_of names.now (term_of (target_view target.now))) }
{
    target_in(alloc, Notation::Plain, target, names)
}

/// A target as LaTeX: the term `P(Y \mid \mathrm{do}(X))`, or `P(Y)` where X is empty.
pub fn target_latex(alloc: Global, target: &Target, names: &Names) -> Result<Vec<u8>, AllocError>
    ensures { IfOk result (λ v. v.items ≡ latex_of names.now (term_of (target_view target.now))) }
{
    target_in(alloc, Notation::Latex, target, names)
}
