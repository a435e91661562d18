//! The direction in which a round goes over the devices of a part.

ghost use Rattle.std.specs.Prelude.{◌≡◌, ◌≢◌, ◌<◌};
ghost use Rattle.path_fixpoint.specs.Parts.{visited_place};

/// The direction in which a round goes over the devices of a part.
#[derive(Clone, Copy)]
pub(crate) enum Direction {
    /// From the first device on.
    Forward,
    /// Back from the last device.
    Backward,
}

impl Direction {
    /// The other direction.
    pub(crate) fn turned(self) -> Direction
        ensures { result ≢ self }
    {
        match self {
            Direction::Forward => Direction::Backward,
            Direction::Backward => Direction::Forward,
        }
    }

    /// The place that a round over so many places visits at a step.
    pub(crate) fn place(self, count: usize, step: usize) -> usize
        requires { step < count }
        ensures is { result ≡ visited_place self count step }
        ensures inside { result < count }
    {
        match self {
            Direction::Forward => step,
            Direction::Backward => count - 1 - step,
        }
    }
}
