//! Sharper bounds of the effect of a treatment with two values, by pairs of levels of an instrument.
#![tactic(auto)]

ghost use Rattle.crossed_bounds.specs.Crossed.{TwoLevelsBound, PairedBoundsHold, PairedIsTight, PairedCrossedHaveNoModel};
ghost use Rattle.crossed_bounds.specs.Crossed.{SharperBoundsHold, SharperIsTight, SharperCrossedHaveNoModel};

/// What holds in every model that fits a graph, positive or not.
pub fn laws()
    ensures levels { TwoLevelsBound }
    ensures paired_tight { PairedIsTight }
    ensures paired { PairedBoundsHold }
    ensures paired_crossed { PairedCrossedHaveNoModel }
    ensures tight { SharperIsTight }
    ensures effect { SharperBoundsHold }
    ensures crossed { SharperCrossedHaveNoModel }
{}
