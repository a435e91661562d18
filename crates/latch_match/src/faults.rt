//! Why the ports of a cell do not pair with the signals of a model.

use thiserror::Error;
use vrt_model::Text;

/// What stands in the way of a pairing.
#[derive(Debug, Drop, Error)]
pub enum PairFault {
    /// The first port in the way, else the first signal. A port is in the way where it has no role, or two signals fit
    /// it by name, or another port pairs with its signal, or its `port` rule names no interface signal, or a
    /// `clockport` rule names it, an output or a supply, or an `assume` names it, an output. A signal is in the way
    /// where no port pairs with it and it carries no clock.
    #[error("port or signal does not pair")]
    Ports { name: Text },
    /// The first input or clock that is an output too.
    #[error("output is an input")]
    OutputIsInput { signal: Text },
    /// Memory could not be had.
    #[error("out of memory")]
    NoMemory,
}
