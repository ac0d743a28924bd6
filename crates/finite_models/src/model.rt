//! Finite causal models with hidden causes, as data (Pearl).

use mixed_graph::VSet;

/// A finite causal model with hidden causes, as data; vertex v has the values below `sizes[v]`.
#[derive(Drop)]
pub struct Model {
    pub sizes: Vec<u32>,
    pub causes: Vec<Cause>,
    pub mechanisms: Vec<Mechanism>,
}

/// A hidden cause: the weight of each of its values, and the vertices that it serves.
#[derive(Drop)]
pub struct Cause {
    pub weights: Vec<u32>,
    pub children: VSet,
}

/// How a vertex gets its value from its parents and its causes.
#[derive(Drop)]
pub enum Mechanism {
    /// The outputs, in mixed radix by the parents' values in index order and then by the causes' values in list order, the first varying slowest.
    Table {
        outputs: Vec<u32>,
    },
    /// The hedge bit and twice the carried bit; the one bit where there is one part; 0 where there is none.
    Parity {
        hedge: Option<Part>,
        carried: Option<Part>,
    },
}

/// The parity of some vertices' hedge bits, some vertices' carried bits, the vertex's own hedge bit, and the values of some causes.
#[derive(Drop)]
pub struct Part {
    pub hedge_of: VSet,
    pub carried_of: VSet,
    pub own_hedge: bool,
    pub causes: Vec<u32>,
}

/// What keeps a model from fitting a graph.
#[derive(Clone, Copy, Debug, PartialEq, Eq)]
pub enum ModelFault {
    /// The lowest cause without a positive weight or a child, or with a child that is no vertex, or with two that no bidirected edge joins.
    /// Its number is given as 2^32 - 1 where it would pass that.
    Cause(u32),
    /// The lowest vertex that reads what it may not, or whose table has another length than its index range.
    Input(u8),
    /// The lowest vertex with an output that is no value of it, or with bits of another number than its size.
    Value(u8),
}

/// What keeps a weight from being computed.
#[derive(Clone, Copy, Debug, PartialEq, Eq)]
pub enum WeightFault {
    /// There are more than 2^20 worlds.
    TooMany,
    /// There are not, and the weights of all worlds sum to 2^128 or more.
    TooWide,
}
