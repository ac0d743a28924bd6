//! Where names were found last.

/// Where names were found last: a vertex for each of 256 places.
///
/// A vertex that stands here is a guess, which the names themselves confirm.
#[derive(Clone, Copy)]
pub struct NameGuesses {
    vertices: [u8; 256],
}

impl NameGuesses {
    /// The first vertex at each place.
    pub(crate) fn new() -> NameGuesses {
        NameGuesses { vertices: [0; 256] }
    }

    /// The next guess for a name.
    #[inline(always)]
    pub(crate) fn guess(&self, name: &[u8], key: u64) -> u8 {
        self.vertices[place(name, key) as usize]
    }

    /// Keeps the index of a name as the next guess.
    pub(crate) fn keep(&mut self, name: &[u8], key: u64, v: u8) {
        self.vertices[place(name, key) as usize] = v;
    }
}

/// A number that tells most names apart: of the key, where the name has one.
#[inline(always)]
fn place(name: &[u8], key: u64) -> u8 {
    if key == 0 {
        byte_sum(name)
    } else {
        (key.wrapping_mul(11400714819323198485) >> 56) as u8
    }
}

/// A number that tells most names apart: of the length, the first byte and the last two.
fn byte_sum(name: &[u8]) -> u8 {
    let len = (name.len() % 256) as u8;
    match name {
        [first, .., before, last] => first
            .wrapping_mul(5)
            .wrapping_add(before.wrapping_mul(17))
            .wrapping_add(*last)
            .wrapping_add(len),
        [first, .., last] => first.wrapping_mul(17).wrapping_add(*last),
        [only] => *only,
        [] => 0,
    }
}
