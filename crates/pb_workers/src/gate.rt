//! Gates, through which a caller watches which pieces workers get.

/// A gate is told of each piece that a worker got, before the worker searches it. All workers share one gate. No answer depends
/// on it: tests use it to hold workers back.
pub trait Gate {
    /// The worker got the piece, and searches it after this call.
    fn pass(&self, worker: u32, piece: u32);
}

/// A gate that does nothing.
#[derive(Clone, Copy)]
pub struct OpenGate;

impl Gate for OpenGate {
    fn pass(&self, _worker: u32, _piece: u32) {}
}
