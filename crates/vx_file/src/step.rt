//! The steps of a script.

/// One step of a script.
#[derive(Clone, Copy, Debug, PartialEq, Eq)]
pub enum Step {
    /// Registers a request for a segment, by its number.
    Register(u32),
    /// Polls a request, by the number that its register answered.
    Poll(u64),
    /// Drops a request, by that number.
    Drop(u64),
    /// Reads what was polled and waits.
    Drive,
}
