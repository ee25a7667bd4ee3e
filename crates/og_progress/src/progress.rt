//! Who is told how far a run is.

use og_par::{Gate, OpenGate};

/// Is told how far a run is. Nothing of the run depends on what comes of it.
pub trait Progress {
    /// Called when a statement begins, with its number from 1 and the number of all statements.
    fn begin(&self, statement: usize, count: usize);

    /// Called now and then while a file is read or written, with the bytes that are read or the rows that are
    /// written, and the number of all of them.
    fn advance(&self, done: usize, all: usize);

    /// Called when the run has ended, before it is told why.
    fn end(&self);
}

impl Progress for OpenGate {
    fn begin(&self, _statement: usize, _count: usize) {}

    fn advance(&self, _done: usize, _all: usize) {}

    fn end(&self) {}
}

/// A gate with nobody who is told how far the run is.
#[derive(Drop)]
pub struct Unwatched<'a, G> {
    gate: &'a G,
}

impl<'a, G> Unwatched<'a, G> {
    /// The gate, with nobody.
    pub fn new(gate: &'a G) -> Unwatched<'a, G> {
        Unwatched { gate }
    }
}

impl<'a, G: Gate> Gate for Unwatched<'a, G> {
    fn enter(&self, piece: usize) {
        self.gate.enter(piece);
    }
}

impl<'a, G> Progress for Unwatched<'a, G> {
    fn begin(&self, _statement: usize, _count: usize) {}

    fn advance(&self, _done: usize, _all: usize) {}

    fn end(&self) {}
}
