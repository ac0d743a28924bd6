//! The vertices of each role.

ghost use Rattle.std.specs.Prelude.{◌≡◌, ◌<◌, ◌&&◌, ◌||◌, ◌==◌, ℕ, List, [], ◌∷◌, Some, false, IfSome, IfNone};
ghost use Rattle.mixed_graph.specs.Vocabulary.{has};
ghost use Rattle.dag_reader.specs.declared.marks.Role.{Role};
ghost use Rattle.dag_reader.specs.declared.marks.Remark.TheVariants.{HasRole};
ghost use Rattle.dag_reader.specs.Passes.{same_role, has_role, roles_behind, HasTwo, IsRoleClash};
ghost use Rattle.dag_reader.specs.RoleSets.{in_set};

use crate::marks::Role;
use mixed_graph::VSet;

/// The vertices of each role.
#[derive(Clone, Copy, Debug)]
pub struct Roles {
    pub exposures: VSet,
    pub outcomes: VSet,
    pub adjusted: VSet,
    pub latent: VSet,
}

impl Roles {
    /// No vertex has a role.
    pub fn none() -> Roles
        ensures { (r : Role) (v : ℕ) → in_set result r v ≡ false }
    {
        Roles {
            exposures: VSet::empty(),
            outcomes: VSet::empty(),
            adjusted: VSet::empty(),
            latent: VSet::empty(),
        }
    }

    /// The same with one vertex more in a role.
    fn with(self, role: Role, v: u8) -> Roles
        requires { v < 64 }
        ensures { (r : Role) (u : ℕ) → in_set result r u ≡ (in_set self r u || ((u == v) && same_role r role)) }
    {
        let mut roles = self;
        let one = VSet::one(v);
        match role {
            Role::Exposure => roles.exposures = self.exposures.union(one),
            Role::Outcome => roles.outcomes = self.outcomes.union(one),
            Role::Adjusted => roles.adjusted = self.adjusted.union(one),
            Role::Latent => roles.latent = self.latent.union(one),
        }
        roles
    }

    /// The same with the role of the member before, if there is one.
    pub fn with_last(self, last: Option<u8>, role: Role) -> Roles
        requires { (v : ℕ) → last ≡ Some v → v < 64 }
        ensures { (r : Role) (u : ℕ) → in_set result r u ≡ (in_set self r u || has_role (roles_behind last (HasRole role ∷ [])) r u) }
    {
        match last {
            Some(v) => self.with(role, v),
            None => self,
        }
    }

    /// The vertices in two of the sets.
    fn in_two(self) -> VSet
        ensures { (v : ℕ) → has result.bits v ≡ ((has self.exposures.bits v && has self.outcomes.bits v) || ((has self.exposures.bits v || has self.outcomes.bits v) && has self.adjusted.bits v) || ((has self.exposures.bits v || has self.outcomes.bits v || has self.adjusted.bits v) && has self.latent.bits v)) }
    {
        let two = self.exposures.union(self.outcomes);
        let three = two.union(self.adjusted);
        self.exposures
            .intersection(self.outcomes)
            .union(two.intersection(self.adjusted))
            .union(three.intersection(self.latent))
    }

    /// The lowest vertex with two different roles.
    pub fn clash(self) -> Option<u8>
        ensures found { IfSome result (λ v. IsRoleClash (in_set self) v) }
        ensures none { IfNone result ((v : ℕ) → HasTwo (in_set self) v → ⊥) }
    {
        let two = self.in_two();
        if two.is_empty() {
            return None;
        }
        Some(two.lowest())
    }
}
