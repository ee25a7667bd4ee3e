//! Standard output beside a terminal that shows how far the run is.

use crate::meter::Meter;
use og_io::{PutRefusal, Sink};
use std::io::Eprint;

/// A sink for which the line of the meter is taken away, so that what is put stands on lines of its own.
#[derive(Drop)]
pub struct ClearedSink<'a, R, K> {
    meter: &'a Meter<'a, R>,
    sink: K,
}

impl<'a, R, K> ClearedSink<'a, R, K> {
    /// The sink, with the meter beside it.
    pub fn new(meter: &'a Meter<'a, R>, sink: K) -> ClearedSink<'a, R, K> {
        ClearedSink { meter, sink }
    }
}

impl<'a, R: Eprint, K: Sink> Sink for ClearedSink<'a, R, K> {
    ghost written = { λ s. K.written s.sink };

    ghost faults = { λ s. K.faults s.sink };

    fn put(&mut self, piece: &[u8]) -> Result<(), PutRefusal> {
        self.meter.take();
        let put = self.sink.put(piece);
        self.meter.give_back();
        put
    }
}
