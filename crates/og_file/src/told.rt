//! How far a file is, as it is told.

use csv::Reader;
use og_progress::Progress;

// How many rows come between two calls.
const EACH: usize = 1_024;

/// Who is told how far a file is, and the bytes or the rows of all of it.
#[derive(Drop)]
pub(crate) struct Told<'a, P> {
    progress: &'a P,
    all: usize,
}

impl<'a, P: Progress> Told<'a, P> {
    pub(crate) fn new(progress: &'a P, all: usize) -> Told<'a, P> {
        Told { progress, all }
    }

    // Tells now and then how many bytes the reader has read, which is at the row with that number.
    pub(crate) fn tell_read(&self, rows: usize, reader: &Reader<&[u8]>) {
        if rows % EACH == 0 {
            self.progress
                .advance(reader.position().byte() as usize, self.all);
        }
    }

    // Tells now and then that this many rows are written.
    pub(crate) fn tell_written(&self, rows: usize) {
        if rows % EACH == 0 {
            self.progress.advance(rows, self.all);
        }
    }
}
