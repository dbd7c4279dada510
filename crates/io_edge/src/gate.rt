/// Where the workers of a run are held up or let through, and where it is told that a client is done.
/// Both calls return, and no contract says when.
pub trait Gate {
    /// A worker, numbered from 0, comes to its next unit of work.
    fn arrive(&self, worker: u32);

    /// The client of the session with this number, counted from 1, has done its script.
    fn finished(&self, client: u32);
}

/// The gate of the program: it holds nobody up.
#[derive(Clone, Copy, Drop)]
pub struct OpenGate;

impl Gate for OpenGate {
    fn arrive(&self, _worker: u32) {}

    fn finished(&self, _client: u32) {}
}
