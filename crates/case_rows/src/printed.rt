//! What rows have printed so far.

use std::alloc::{AllocError, Global};
use std::fmt;

/// What rows have printed so far. A formatted text is written to it by `write!`.
#[derive(Drop)]
pub struct Printed {
    bytes: Vec<u8>,
}

impl Printed {
    /// Nothing.
    pub fn new(alloc: Global) -> Printed {
        Printed {
            bytes: Vec::new(alloc),
        }
    }

    /// All that was printed.
    pub fn bytes(&self) -> &[u8] {
        &self.bytes
    }

    /// Adds bytes, which may be no text.
    pub fn add(&mut self, bytes: &[u8]) -> Result<(), AllocError> {
        self.bytes.extend_from_slice(bytes)
    }
}

impl fmt::Write for Printed {
    fn write_str(&mut self, text: &str) -> fmt::Result {
        self.bytes
            .extend_from_slice(text.as_bytes())
            .map_err(fmt::Error::from)
    }
}
