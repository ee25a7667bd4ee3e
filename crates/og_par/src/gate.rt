//! What is told when a chunk of items begins.

/// Is told when a chunk of items begins.
pub trait Gate {
    /// Called once at the start of each chunk, with the chunk's number from 0.
    fn enter(&self, piece: usize);
}

/// The gate that returns at once.
#[derive(Clone, Copy, Debug)]
pub struct OpenGate;

impl Gate for OpenGate {
    fn enter(&self, _piece: usize) {}
}
