//! What a net shows.

/// What a net shows at one valuation.
#[derive(Clone, Copy, Debug)]
pub enum Seen {
    /// Clear paths from roots of this value alone end at the net.
    Bit(bool),
    /// Clear paths from roots of both values end at the net.
    Fight,
    /// No clear path ends at the net.
    Float,
    /// Some gate of the net's part shows no bit, so nothing is said of the net.
    Blocked,
}
