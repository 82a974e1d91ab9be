//! A gate that each worker passes before it answers a unit.

/// A gate may hold a worker for a while. Several workers may use it at once. A call promises only
/// that it returns.
pub trait Gate: Sync {
    /// The worker is about to answer the unit; workers are numbered from 0, and so are the units of
    /// a moment. Where several moments are decided side by side, each of them is one unit: its
    /// number is the moment's in an exercise, and that of the moment's last line in a replay or a
    /// comparison.
    fn pass(&self, worker: u32, unit: u32);
}

/// The gate that lets every worker pass.
#[derive(Clone, Copy, Debug)]
pub struct Open;

impl Gate for Open {
    fn pass(&self, _worker: u32, _unit: u32) {}
}
