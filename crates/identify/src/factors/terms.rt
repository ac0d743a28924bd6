//! The expressions of which a factor is made.

ghost use Rattle.std.specs.Prelude.{◌≡◌, ◌<◌, IfOk};
ghost use Rattle.prob_expr.specs.View.{view};
ghost use Rattle.identification_theory.specs.Vocabulary.{sum_if, marginal, conditional};
ghost use Rattle.identify.specs.Parts.{source_of};

use mixed_graph::VSet;
use prob_expr::Expr;
use std::alloc::{AllocError, Global};

/// The distribution that a factor is read from.
#[derive(Clone, Copy)]
pub enum Source {
    /// That under an intervention on a set; for the empty set the observed one.
    Under(VSet),
    /// The definition of that number.
    Defined(u32),
}

/// The sum over a set, where it isn't empty.
pub fn sum_if(alloc: Global, over: VSet, body: Expr) -> Result<Expr, AllocError>
    ensures { IfOk result (λ e. view e ≡ sum_if over.bits (view body)) }
{
    if over.is_empty() {
        return Ok(body);
    }
    Ok(Expr::Sum {
        over,
        body: Box::new(alloc, body)?,
    })
}

/// Definition k, a distribution of the set a, summed down to u.
fn marginal(alloc: Global, k: u32, a: VSet, u: VSet) -> Result<Expr, AllocError>
    ensures { IfOk result (λ e. view e ≡ marginal k a.bits u.bits) }
{
    sum_if(alloc, a.difference(u), Expr::Named(k))
}

/// P(v | m) in the source, which for a definition is a distribution of the set a.
pub fn conditional(alloc: Global, from: Source, a: VSet, v: u8, m: VSet) -> Result<Expr, AllocError>
    requires { v < 64 }
    ensures { IfOk result (λ e. view e ≡ conditional (source_of from) a.bits v m.bits) }
{
    match from {
        Source::Under(doing) => Ok(Expr::Prob {
            of: VSet::one(v),
            doing,
            given: m,
        }),
        Source::Defined(k) => {
            if m.is_empty() {
                return marginal(alloc, k, a, VSet::one(v));
            }
            let top = Box::new(alloc, marginal(alloc, k, a, m.union(VSet::one(v)))?)?;
            Ok(Expr::Quotient {
                top,
                bottom: Box::new(alloc, marginal(alloc, k, a, m)?)?,
            })
        }
    }
}
