//! What holds keep: their held values as a phase begins, and what the kept circuit shows of a net against what the bare one
//! does. The variables of a phase are those of `hold_groups`.
#![tactic(auto)]

mod bits;
mod kept;
mod roots;

pub use bits::{group_bit, held_bit};
pub use hold_groups::{VarsFault, variables};
pub use kept::{KeptFaults, kept_faults};
pub use roots::held_roots;
