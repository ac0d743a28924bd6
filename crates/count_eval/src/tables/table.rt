//! The values of one definition at the cells of its free variables.

ghost use Rattle.std.specs.Prelude.{◌≡◌, None, get_or};
ghost use Rattle.count_eval.specs.Programs.{cell_of};
ghost use Rattle.count_table.specs.Vocabulary.{HasCell, place_at};

use count_table::sum_tables::Places;
use quantity::Quantity;

/// The values of a definition at the cells of its free variables; none at a cell where it has a fault.
#[derive(Drop)]
pub(crate) struct DefinitionTable<Q: Quantity> {
    pub(crate) places: Places,
    pub(crate) values: Vec<Option<Q>>,
}

impl<Q: Quantity> DefinitionTable<Q> {
    /// The value at an assignment's cell, if the definition has one there.
    pub(crate) fn value(&self, at: &[u32; 64]) -> Option<Q>
        requires { HasCell self.now.places at.now }
        ensures { result ≡ get_or self.now.values.items (place_at self.now.places (cell_of at.now)) None }
    {
        match self.values.get(self.places.place(at)) {
            Some(value) => *value,
            None => None,
        }
    }
}
