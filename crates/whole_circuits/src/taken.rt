//! What outputs of whole instances are at a net.

ghost use Rattle.std.specs.Prelude.{◌≡◌, ◌&&◌, IfOk, replicate};
ghost use Rattle.whole_circuits.specs.Taken.{admits, joins, shared, taken_at};
ghost use Rattle.whole_circuits.specs.declared.taken.Taken.TheVariants.{Free as FreeNet};
ghost use Rattle.vrt_model.specs.declared.whole.Drive.{Drive as DriveValue};

use std::alloc::Global;
use vrt_model::{Drive, NoMemory};

/// What outputs of whole instances are at a net.
#[derive(Clone, Copy)]
pub enum Taken {
    /// None.
    Free,
    /// Some, which all drive at this level: others of it may join them.
    Shared(u8),
    /// Some, which no other may join: a soft one, or some of several drives.
    Closed,
}

/// Nets without outputs.
pub fn no_outputs(alloc: Global, count: usize) -> Result<Vec<Taken>, NoMemory>
    ensures { IfOk result (λ taken. taken.items ≡ replicate count FreeNet) }
{
    match vec![in alloc; Taken::Free; count] {
        Ok(taken) => Ok(taken),
        Err(_) => Err(NoMemory),
    }
}

/// What is at a net, nothing past the end.
pub fn taken_at(taken: &[Taken], net: usize) -> Taken
    ensures { result ≡ taken_at taken.now net }
{
    match taken.get(net) {
        Some(there) => *there,
        None => Taken::Free,
    }
}

/// Whether an output of a drive may be where another of this drive is.
pub(crate) fn joins(drive: Drive, other: Drive) -> bool
    ensures { result ≡ joins drive other }
{
    let Drive::Level(level) = drive else {
        return false;
    };
    match other {
        Drive::Soft => false,
        Drive::Level(there) => there == level,
    }
}

/// Whether an output of a drive may come to a net with these outputs.
pub(crate) fn admits(taken: Taken, drive: Drive) -> bool
    ensures { result ≡ admits taken drive }
{
    match taken {
        Taken::Free => true,
        Taken::Shared(level) => joins(drive, Drive::Level(level)),
        Taken::Closed => false,
    }
}

/// What is at a net where an output of a drive comes to others.
pub fn joined(taken: Taken, drive: Drive) -> Taken
    ensures { (own : DriveValue) → admits result own ≡ (admits taken own && joins own drive) }
{
    let Drive::Level(level) = drive else {
        return Taken::Closed;
    };
    match taken {
        Taken::Free => Taken::Shared(level),
        Taken::Shared(other) => shared(other, level),
        Taken::Closed => Taken::Closed,
    }
}

/// What is at a net with outputs of two levels.
fn shared(one: u8, other: u8) -> Taken
    ensures { result ≡ shared one other }
{
    if one == other {
        Taken::Shared(one)
    } else {
        Taken::Closed
    }
}
