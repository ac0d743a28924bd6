//! Conditional instruments (Pearl, Causality, chapter 7).

ghost use Rattle.std.specs.Prelude.{ℕ, IfErr, OnErr, OnOk};
ghost use Rattle.mixed_graph.specs.Vocabulary.{has, graph_of};
ghost use Rattle.do_rules.specs.Vocabulary.{AreFourSets};
ghost use Rattle.natural_bounds.specs.Instruments.{IsInstrument, IsInstrumentFault};

use do_rules::cuts::cut_into;
use m_separation::{OpenPath, open_path};
use mixed_graph::{Graph, VSet};

/// Why a set is no instrument.
#[derive(Clone, Copy)]
pub enum InstrumentFault {
    /// The lowest member of z or w that is a descendant of x.
    Moved(u8),
    /// No member is, and this path from y to z is open given x and w in the graph without the edges into x.
    Open(OpenPath),
}

/// Whether z is an instrument, in the strata of w, for the effect of x on y; else why not.
///
/// Without a member of z this asks that x moves no member of w: then the bounds are the natural ones (Robins 1989; Manski 1990).
pub fn instrument(g: &Graph, x: VSet, y: VSet, z: VSet, w: VSet) -> Result<(), InstrumentFault>
    requires { AreFourSets g.now.n (has x.bits) (has y.bits) (has z.bits) (has w.bits) }
    ensures is { OnOk result (IsInstrument (graph_of g.now) (has x.bits) (has y.bits) (has z.bits) (has w.bits)) }
    ensures fault { IfErr result (IsInstrumentFault (graph_of g.now) (has x.bits) (has y.bits) (has z.bits) (has w.bits)) }
    ensures none { OnErr result (IsInstrument (graph_of g.now) (has x.bits) (has y.bits) (has z.bits) (has w.bits) → ⊥) }
{
    let moved = z.union(w).intersection(g.descendants(x));
    if !moved.is_empty() {
        return Err(InstrumentFault::Moved(moved.lowest()));
    }
    match open_path(&cut_into(g, x), y, z, x.union(w)) {
        None => Ok(()),
        Some(path) => Err(InstrumentFault::Open(path)),
    }
}
