//! Names and edges where they stand in a text.

ghost use Rattle.mixed_graph.specs.Vocabulary.{IsName, IsKeyed};

use crate::marks::Arrow;

/// A name where it stands in a text, with its key.
#[derive(Clone, Copy, Debug)]
pub struct Word<'a> {
    pub bytes: &'a [u8],
    pub key: u64,
    pub ghost formed: { IsName bytes.now },
    pub ghost keyed: { IsKeyed bytes.now key },
}

/// An edge between two bare names, where they stand in a text.
#[derive(Clone, Copy, Debug)]
pub struct Link<'a> {
    pub left: Word<'a>,
    pub arrow: Arrow,
    pub right: Word<'a>,
}
