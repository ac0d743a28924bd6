//! What the adjustment formula is in models in which some strata have no weight.
#![tactic(auto)]

ghost use Rattle.weak_adjustment.specs.Weakly.{AdmissibleAdjustsWeakly, AdmissibleAdjustsMatched};

/// The formula of an admissible set, by the rule that a product with a factor 0 is 0, is the effect in each model in which
/// P(x given the set) is above 0 wherever the set's values are; and over the weights of counts that such a model has.
pub fn laws()
    ensures model { AdmissibleAdjustsWeakly }
    ensures matched { AdmissibleAdjustsMatched }
{
    adjusted_bounds::laws();
}
