//! What is done at each node of an expression.

ghost use Rattle.std.specs.Prelude.{ℕ, Result};

use mixed_graph::VSet;

/// What is done at each node of an expression, children first.
///
/// Each method has a relation as its meaning, between the state before, the arguments, the answer
/// and the state after. `folding::fold` composes them over a tree.
pub trait Fold {
    type Out: Drop;

    type Fault: Drop;

    ghost prob_does: { Self → ℕ → ℕ → ℕ → Result Self.Out Self.Fault → Self → Type 0 };

    ghost sum_does: { Self → ℕ → Self.Out → Result Self.Out Self.Fault → Self → Type 0 };

    ghost start_does: { Self → Self.Out → Result Self.Out Self.Fault → Self → Type 0 };

    ghost factor_does: { Self → Self.Out → Self.Out → Result Self.Out Self.Fault → Self → Type 0 };

    ghost quotient_does: { Self → Self.Out → Self.Out → Result Self.Out Self.Fault → Self → Type 0 };

    ghost named_does: { Self → ℕ → Result Self.Out Self.Fault → Self → Type 0 };

    /// A term.
    fn prob(&mut self, of: VSet, doing: VSet, given: VSet) -> Result<Self::Out, Self::Fault>
        ensures { prob_does self.old of.bits doing.bits given.bits result self.new };

    /// A sum, behind its body.
    fn sum(&mut self, over: VSet, body: Self::Out) -> Result<Self::Out, Self::Fault>
        ensures { sum_does self.old over.bits body result self.new };

    /// The first factor of a product.
    fn start(&mut self, first: Self::Out) -> Result<Self::Out, Self::Fault>
        ensures { start_does self.old first result self.new };

    /// Each next factor, behind those before.
    fn factor(&mut self, so_far: Self::Out, next: Self::Out) -> Result<Self::Out, Self::Fault>
        ensures { factor_does self.old so_far next result self.new };

    /// A quotient, behind its top and then its bottom.
    fn quotient(&mut self, top: Self::Out, bottom: Self::Out) -> Result<Self::Out, Self::Fault>
        ensures { quotient_does self.old top bottom result self.new };

    /// A definition's number.
    fn named(&mut self, k: u32) -> Result<Self::Out, Self::Fault>
        ensures { named_does self.old k result self.new };
}
