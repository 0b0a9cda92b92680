//! A place in a run where a caller may wait or look, for tests that have to see how a run goes.

/// What a job that runs in threads passes once at each expansion.
pub trait Gate {
    fn pass(&self);
}

/// Does nothing.
#[derive(Clone, Copy, Debug)]
pub struct NoGate;

impl Gate for NoGate {
    fn pass(&self) {}
}
