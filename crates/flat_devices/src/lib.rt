//! The devices of an unrolled cell.
#![tactic(auto)]

mod device_tables;
mod devices;
mod places;

pub use device_tables::{DeviceTable, level};
pub use devices::kind_or_n;
pub use places::flat_devices;
