//! Answers that show their effect at cells.

ghost use Rattle.std.specs.Prelude.{ℕ, List, ◌≡◌, ◌++◌, OnOk};
ghost use Rattle.json.specs.Json.{Json};
ghost use Rattle.count_eval.specs.Vocabulary.{cell_of};
ghost use Rattle.answer_json.specs.Vocabulary.{with_members};
ghost use Rattle.primed_names.specs.Vocabulary.{primed_names};

use answer_json::Object;
use mixed_graph::{Names, VSet};
use std::alloc::{AllocError, Global};

/// An answer that shows its effect at a cell, by the names of the vertices and the primed names of x.
pub trait ShownAtCells {
    /// x.
    ghost treatment: { Self → ℕ };
    /// The text of the effect at a cell.
    ghost effect: { Self → List (List ℕ) → (ℕ → ℕ) → List ℕ };
    /// The members of a cell's levels.
    ghost levels: { Self → List (List ℕ) → List ℕ → List (List ℕ × Json) };

    /// x, whose members have primed names.
    fn treatment(&self) -> VSet
        ensures { result.bits ≡ treatment self.now };

    /// Appends the effect at a cell.
    fn push_effect(
        &self,
        alloc: Global,
        out: &mut Vec<u8>,
        names: &Names,
        all: &Names,
        cell: &[u32],
    ) -> Result<(), AllocError>
        ensures { all.now ≡ primed_names names.now (treatment self.now)
            → OnOk result (out.new.items ≡ out.old.items ++ effect self.now names.now (cell_of cell.now)) };

    /// Adds the members of a cell's levels.
    fn push_levels(
        &self,
        object: &mut Object,
        names: &Names,
        all: &Names,
        cell: &[u32],
    ) -> Result<(), AllocError>
        ensures { all.now ≡ primed_names names.now (treatment self.now)
            → OnOk result (object.new ≡ with_members (levels self.now names.now cell.now) object.old) };
}
