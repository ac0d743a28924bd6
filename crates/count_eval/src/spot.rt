/// Where an evaluation stands: at a node of a definition, or of the main expression where there is none, and at a cell.
/// Nodes are numbered in preorder.
#[derive(Clone, Copy)]
pub struct Spot {
    pub def: Option<u32>,
    pub node: u32,
    pub cell: [u32; 64],
}
