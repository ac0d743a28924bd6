//! The laws of the pairs that some set separates.

ghost use Rattle.implications.specs.Laws.{OtherAncestorsSeparate, SeparableIsIndependent};

/// The laws of the pairs that some set separates.
pub fn laws()
    // Where any set separates two vertices, their other ancestors do, also in graphs with bidirected edges.
    ensures ancestors { OtherAncestorsSeparate }

    // What separation says of a pair, models say too.
    ensures models { SeparableIsIndependent }
{}
