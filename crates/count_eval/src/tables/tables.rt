//! The tables of a formula: of sums, and of the values of its definitions.

ghost use Rattle.std.specs.Prelude.{ℕ, ◌≡◌, ◌<◌, ◌≤◌, ◌+◌, ◌^◌, [], length, map, Ok, IfOk, IfSome, get_or};
ghost use Rattle.mixed_graph.specs.Vocabulary.{has};
ghost use Rattle.prob_expr.specs.View.{view};
ghost use Rattle.prob_expr.specs.Vocabulary.{formula_view, free_in_defs};
ghost use Rattle.count_table.specs.Vocabulary.{AreCounts, HasLevels, axes_of, cells_over, cells_in};
ghost use Rattle.count_eval.specs.Answers.{IsEvaluable};
ghost use Rattle.count_eval.specs.Rules.{rule};
ghost use Rattle.count_eval.specs.Programs.{weights_in, is_used, cell_of, known};
ghost use Rattle.count_eval.specs.Tables.{IsTableOf, AreKeptTables, cells_of};

use crate::tables::table::DefinitionTable;
use crate::tables::terms::add_terms;
use crate::{Lookup, Scope, Spot, value_at};
use count_table::Counts;
use count_table::sum_tables::{Places, SumTables};
use mixed_graph::VSet;
use prob_expr::{Formula, free_sets};
use quantity::Quantity;
use std::alloc::{AllocError, Global};
use std::marker::Model;

/// The greatest number of cells of all tables together.
pub(crate) const MOST_CELLS: usize = 4194304;

/// A formula over a table of counts, with tables of sums and of the values of its first definitions. Contracts see the
/// formula and the counts alone.
#[derive(Drop)]
pub(crate) struct Tables<'a, 'b, Q: Quantity> {
    pub(crate) vertices: u32,
    pub(crate) formula: &'a Formula,
    pub(crate) counts: &'a Counts,
    pub(crate) zero: bool,
    pub(crate) sums: &'b SumTables<'a>,
    pub(crate) definitions: &'b [DefinitionTable<Q>],
}

impl<'a, 'b, Q: Quantity> Model for Tables<'a, 'b, Q> {
    ghost use Rattle.prob_expr.specs.View.{formula_view};
    ghost use Rattle.count_eval.specs.Rules.{rule};
    ghost use Rattle.count_eval.specs.Preparations.{Preparation, coded_preparation};
    ghost use Rattle.count_eval.specs.Tables.{AreKeptTables};

    ghost Value = { Preparation };

    ghost coded = { coded_preparation };

    ghost view = { λ s. record { vertices = s.vertices; counts = s.counts.now; formula = formula_view s.formula.now; zero = s.zero } };

    ghost invariant = { λ s. AreKeptTables Q.numbers (rule Q.kind s.zero) s.vertices s.counts.now (formula_view s.formula.now) s.sums.now.table s.definitions.now };
}

impl<'a, 'b, Q: Quantity> Lookup<Q> for Tables<'a, 'b, Q> {
    ghost counts = { λ p. p.counts };

    ghost holds = { λ p k at x. known (rule Q.kind p.zero) (weights_in p.vertices p.counts) p.formula.defs (length p.formula.defs) k at ≡ Ok x };

    fn levels(&self, v: u8) -> u32 {
        self.counts.levels(v)
    }

    fn sum(&self, of: VSet, cell: &[u32; 64]) -> u64 {
        self.sums.sum(of, cell)
    }

    fn definition(&self, k: u32, cell: &[u32; 64]) -> Option<Q> {
        match self.definitions.get(k as usize) {
            Some(table) => table.value(cell),
            None => None,
        }
    }
}

impl<'a, 'b, Q: Quantity> Tables<'a, 'b, Q> {
    /// The value of a definition at a cell, if it has one there.
    fn value_of(&self, k: u32, cell: [u32; 64]) -> Option<Q>
        requires definition { k < length self.now.formula.defs }
        requires levels { HasLevels self.now.counts (is_used self.now.counts) cell }
        ensures { IfSome result (λ q. known (rule Q.kind self.now.zero) (weights_in self.now.vertices self.now.counts) self.now.formula.defs (length self.now.formula.defs) k (cell_of cell) ≡ Ok (Q.numbers q)) }
    {
        let defs = self.formula.defs.as_slice();
        let scope = Scope {
            lookup: self,
            n: self.vertices,
            defs,
            zero: self.zero,
        };
        let root = Spot {
            def: Some(k),
            node: 0,
            cell,
        };
        let place = k as usize;
        match value_at(&scope, &defs[place], root) {
            Ok(q) => Some(q),
            Err(_) => None,
        }
    }

    /// The table of a definition with these free variables, if it has no more cells than there is room for.
    fn table_of(
        &self,
        alloc: Global,
        k: u32,
        free: VSet,
        room: usize,
    ) -> Result<Option<DefinitionTable<Q>>, AllocError>
        requires definition { k < length self.now.formula.defs }
        requires free { free.bits ≡ get_or (free_in_defs [] self.now.formula.defs) k 0 }
        ensures small { IfOk result (λ o. IfSome o (λ x. cells_over x.places ≤ room)) }
        ensures table { IfOk result (λ o. IfSome o (λ x. IsTableOf Q.numbers (rule Q.kind self.now.zero) self.now.vertices self.now.counts self.now.formula.defs k x.places x.values.items)) }
    {
        let places = Places::of(alloc, self.counts, free)?;
        if places.count() > room {
            return Ok(None);
        }
        let mut values = Vec::with_capacity(alloc, places.count())?;
        for place in 0..places.count() {
            let value = self.value_of(k, places.cell(place));
            values.push(value)?;
        }
        Ok(Some(DefinitionTable { places, values }))
    }
}

/// Tables of the values of a formula's first definitions, and how many cells they have together.
#[derive(Drop)]
pub(crate) struct DefinitionTables<Q: Quantity> {
    pub(crate) tables: Vec<DefinitionTable<Q>>,
    pub(crate) cells: usize,
}

/// Makes tables of a formula's first definitions, each after the sums of its terms, as long as all tables have at most
/// `MOST_CELLS` cells together.
pub(crate) fn tables_of<'a, Q: Quantity>(
    alloc: Global,
    n: u32,
    f: &'a Formula,
    c: &'a Counts,
    zero: bool,
    sums: &mut SumTables<'a>,
) -> Result<DefinitionTables<Q>, AllocError>
    requires formula { IsEvaluable n c.now (formula_view f.now) }
    requires table { AreCounts c.now }
    requires sums { sums.old.table ≡ c.now }
    requires few { cells_in sums.old ≤ 2 ^ 22 }
    ensures table { sums.new.table ≡ c.now }
    ensures kept { IfOk result (λ made. AreKeptTables Q.numbers (rule Q.kind zero) n c.now (formula_view f.now) c.now made.tables.items) }
    ensures cells { IfOk result (λ made. made.cells ≡ cells_of made.tables.items) }
    ensures few { IfOk result (λ made. cells_in sums.new + made.cells ≤ 2 ^ 22) }
{
    let free = free_sets(alloc, &f.defs)?;
    let mut tables = Vec::new(alloc);
    let mut cells = 0;
    for k in 0..free.len().min(MOST_CELLS) {
        add_terms(sums, alloc, &f.defs[k], MOST_CELLS - cells)?;
        let so_far = Tables {
            vertices: n,
            formula: f,
            counts: c,
            zero,
            sums: &*sums,
            definitions: tables.as_slice(),
        };
        let room = MOST_CELLS - cells - sums.cells();
        let Some(table) = so_far.table_of(alloc, k as u32, free[k], room)? else {
            return Ok(DefinitionTables { tables, cells });
        };
        cells += table.places.count();
        tables.push(table)?;
    }
    Ok(DefinitionTables { tables, cells })
}
