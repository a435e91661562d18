//! What the lines so far tell of the next.

use names::Names;

/// The clocks and phases so far, the keys so far, whether a line names a phase, the scale so far, and whether a line has
/// a level or a size.
pub struct Known {
    /// The clocks so far, by their numbers.
    pub clocks: Names,
    /// The phases so far, by their numbers.
    pub phases: Names,
    /// What must not stand twice, of the lines so far.
    pub keys: Names,
    /// Whether a line so far names a phase, so that none may be declared any more.
    pub is_phase_named: bool,
    /// The scale that levels and sizes have here, the usual one where no line so far says one.
    pub scale: u8,
    /// Whether a line so far has a level or a size, so that no line may say the scale any more.
    pub has_levels: bool,
}

/// By hand, so that letting go of one is a call.
impl Drop for Known {
    fn drop(self) {
        let Known {
            clocks: _clocks,
            phases: _phases,
            keys: _keys,
            is_phase_named: _is_phase_named,
            scale: _scale,
            has_levels: _has_levels,
        } = self;
    }
}
