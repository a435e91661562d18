//! Amounts by net.

ghost use Rattle.std.specs.Prelude.{◌≡◌, ℕ, ◌⊎◌, ◌++◌, ◌∷◌, [], length, set, slice_index, IfOk, OnOk};
ghost use Rattle.known_nets.specs.Spreads.{AreListed, AreNone, IsRaised, IsZero};
ghost use Rattle.vrt_model.specs.Lists.{Among};

use crate::lists::{append, append_all};
use std::alloc::Global;
use vrt_model::NoMemory;

/// Amounts by net. Each net with an amount is among those that were met.
pub(crate) struct Amounts {
    /// The amount of each net.
    pub(crate) table: Vec<u8>,
    /// The nets that were met, each again when its amount has risen.
    pub(crate) met: Vec<usize>,
}

/// By hand, so that letting go of one is a call.
impl Drop for Amounts {
    fn drop(self) {
        let Amounts {
            table: _table,
            met: _met,
        } = self;
    }
}

/// The amount of a net in a table, and 0 past its end.
pub(crate) fn amount_at(table: &[u8], net: usize) -> u8
    ensures { result ≡ slice_index table.now net }
{
    match table.get(net) {
        Some(amount) => *amount,
        None => 0,
    }
}

/// Writes the amount of a net. There is none past the end of the table.
fn write(table: &mut Vec<u8>, net: usize, amount: u8)
    ensures { table.new.items ≡ set table.old.items net amount }
{
    if net < table.len() {
        table[net] = amount;
    }
}

/// Sets the amounts of these nets back to 0.
fn write_zeros(table: &mut Vec<u8>, nets: &[usize])
    requires { (n : ℕ) → (slice_index table.old.items n ≡ 0) ⊎ Among nets.now n }
    ensures size { length table.new.items ≡ length table.old.items }
    ensures zero { IsZero table.new.items }
{
    for net in nets {
        write(table, *net, 0);
    }
}

/// As many amounts as there are nets, all 0.
fn zeros(alloc: Global, count: usize) -> Result<Vec<u8>, NoMemory>
    ensures size { IfOk result (λ t. length t.items ≡ count) }
    ensures zero { IfOk result (λ t. IsZero t.items) }
{
    match vec![in alloc; 0; count] {
        Ok(table) => Ok(table),
        Err(_) => Err(NoMemory),
    }
}

impl Amounts {
    /// As many amounts as there are nets, all 0.
    pub(crate) fn none(alloc: Global, count: usize) -> Result<Amounts, NoMemory>
        ensures { IfOk result (AreNone count) }
    {
        let table = zeros(alloc, count)?;
        let met = Vec::new(alloc);
        Ok(Amounts { table, met })
    }

    /// The amount of a net, and 0 past the last.
    pub(crate) fn at(&self, net: usize) -> u8
        ensures { result ≡ slice_index self.now.table.items net }
    {
        amount_at(self.table.as_slice(), net)
    }

    /// Raises the amount of a net, and meets it again, where it was less.
    pub(crate) fn raise(&mut self, net: usize, amount: u8) -> Result<(), NoMemory>
        ensures { OnOk result (IsRaised net amount self.old.table.items self.new.table.items self.old.met.items self.new.met.items) }
    {
        if net < self.table.len() && self.at(net) < amount {
            append(&mut self.met, net)?;
            write(&mut self.table, net, amount);
        }
        Ok(())
    }

    /// Meets a net, and gives it the amount 1.
    pub(crate) fn begin_at(&mut self, net: usize) -> Result<(), NoMemory>
        ensures table { OnOk result (self.new.table.items ≡ set self.old.table.items net 1) }
        ensures met { OnOk result (self.new.met.items ≡ self.old.met.items ++ net ∷ []) }
    {
        append(&mut self.met, net)?;
        write(&mut self.table, net, 1);
        Ok(())
    }

    /// Meets nets, which keep their amounts.
    pub(crate) fn begin_over(&mut self, nets: &[usize]) -> Result<(), NoMemory>
        ensures table { self.new.table ≡ self.old.table }
        ensures met { OnOk result (self.new.met.items ≡ self.old.met.items ++ nets.now) }
    {
        append_all(&mut self.met, nets)
    }

    /// Sets all amounts back to 0.
    pub(crate) fn clear(&mut self)
        requires { AreListed self.old }
        ensures { AreNone (length self.old.table.items) self.new }
    {
        write_zeros(&mut self.table, self.met.as_slice());
        self.met.clear();
    }
}
