//! The classes of parts.

use vrt_model::Net;

/// What kind of logic a channel-connected part is.
#[derive(Clone, Copy, Debug)]
pub enum Class {
    /// No device of it joins an input, and no net of it has a hold: a static gate.
    Static,
    /// A device of it joins an input, or a net of it has a hold: switches pass a value on, or a charge is kept.
    Pass,
    /// A device that the clocks switch on and off charges or discharges a hold net of it: a domino stage.
    Domino,
}

/// The class of a part. The least net of the part stands for it.
#[derive(Clone, Copy)]
pub struct ClassLine {
    /// The least net of the part.
    pub net: Net,
    /// What kind of logic the part is.
    pub class: Class,
}
