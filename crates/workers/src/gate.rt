//! What is called round each piece of work of a thread, so that a test can hold threads there.

/// Is entered before each piece of work of a worker, and left after it.
pub trait Gate: Sync {
    fn enter(&self, worker: u32);

    fn leave(&self, worker: u32);
}

/// A gate that holds no one.
#[derive(Clone, Copy)]
pub struct Open;

impl Gate for Open {
    fn enter(&self, _worker: u32) {}

    fn leave(&self, _worker: u32) {}
}
