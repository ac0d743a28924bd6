//! The vertices that pairs and their sets use.

ghost use Rattle.std.specs.Prelude.{◌≡◌, All};
ghost use Rattle.implications_command.specs.Pairs.{IsNamed};
ghost use Rattle.implications_command.specs.Used.{used_for, used_in};

use implications::Implication;
use mixed_graph::VSet;

/// The vertices of a pair, and those that are given.
fn used_for(i: &Implication) -> VSet
    requires { IsNamed 64 i.now }
    ensures { result.bits ≡ used_for i.now }
{
    VSet::one(i.a).union(VSet::one(i.b).union(i.given))
}

/// Those of all pairs.
pub fn used_in(list: &[Implication]) -> VSet
    requires { All (IsNamed 64) list.now }
    ensures { result.bits ≡ used_in list.now }
{
    let mut all = VSet::EMPTY;
    for i in list {
        all = all.union(used_for(i));
    }
    all
}
