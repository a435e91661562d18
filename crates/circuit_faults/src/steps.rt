//! The steps in which a circuit is looked through.

/// A step in which a circuit is looked through.
#[derive(Clone, Copy)]
pub enum CircuitStep {
    /// The nets of a part, by its place in the list of parts.
    Part(u32),
    /// The constraints of an instance, by its place in the circuit's list of instances.
    Instance(u32),
}
