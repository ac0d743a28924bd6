//! Expressions, formulas and targets.

use mixed_graph::VSet;

/// An expression of probabilities.
#[derive(Debug, Drop)]
pub enum Expr {
    /// P(of | do(doing), given).
    Prob { of: VSet, doing: VSet, given: VSet },
    /// The sum of the body over all values of the vertices in `over`, which it binds.
    Sum { over: VSet, body: Box<Expr> },
    /// The product of its factors.
    Product(Vec<Expr>),
    /// The top divided by the bottom.
    Quotient { top: Box<Expr>, bottom: Box<Expr> },
    /// The definition of that number, at the same assignment.
    Named(u32),
}

/// Definitions, each of which may name earlier ones, and a main expression that may name all.
#[derive(Debug, Drop)]
pub struct Formula {
    pub defs: Vec<Expr>,
    pub main: Expr,
}

/// The target P(y | do(x), given).
#[derive(Clone, Copy, Debug, PartialEq, Eq)]
pub struct Target {
    pub x: VSet,
    pub y: VSet,
    pub given: VSet,
}

/// A node of a formula: the definition's number, or none for main, and the node's number in preorder from 0.
///
/// A number that would pass the last of 32 bits is given as that.
#[derive(Clone, Copy, Debug, PartialEq, Eq)]
pub struct Place {
    pub def: Option<u32>,
    pub node: u32,
}
