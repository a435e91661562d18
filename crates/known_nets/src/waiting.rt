//! The nets that are to be looked at.

ghost use Rattle.std.specs.Prelude.{◌≡◌, ℕ, ◌⊎◌, false, true, length, IfOk, OnOk};
ghost use Rattle.known_nets.specs.Conduction.{is_plain_at};
ghost use Rattle.known_nets.specs.Waits.{HasForgotten, HasWaited, waits};
ghost use Rattle.vrt_model.specs.Lists.{mark_at, At, Among};
ghost use Rattle.vrt_model.specs.Known.{IsPlain};
ghost use Rattle.vrt_model.specs.Path.{Joins};
ghost use Rattle.vrt_model.specs.declared.circuit.Device.{Device as DeviceValue};

use crate::conducting::is_plain;
use crate::lists::append;
use crate::marks::no_marks;
use std::alloc::Global;
use vrt_model::{Circuit, NoMemory};

/// The nets that are to be looked at: a mark at each, and a list that has them. A net of the list without a mark waits no
/// more.
pub(crate) struct Waiting {
    /// Whether a net waits, by net.
    pub(crate) marks: Vec<bool>,
    /// The nets that wait, and more.
    pub(crate) list: Vec<usize>,
}

/// By hand, so that letting go of one is a call.
impl Drop for Waiting {
    fn drop(self) {
        let Waiting {
            marks: _marks,
            list: _list,
        } = self;
    }
}

/// Takes the mark of a net away.
fn unmark(marks: &mut Vec<bool>, net: usize)
    ensures size { length marks.new.items ≡ length marks.old.items }
    ensures gone { mark_at marks.new.items net ≡ false }
    ensures only { (n : ℕ) → mark_at marks.new.items n ≡ true → mark_at marks.old.items n ≡ true }
    ensures kept { (n : ℕ) → mark_at marks.old.items n ≡ true → (mark_at marks.new.items n ≡ true) ⊎ (n ≡ net) }
{
    if net < marks.len() {
        marks[net] = false;
    }
}

impl Waiting {
    /// No net waits.
    pub(crate) fn none(alloc: Global, count: usize) -> Result<Waiting, NoMemory>
        ensures size { IfOk result (λ w. length w.marks.items ≡ count) }
        ensures none { IfOk result (λ w. (n : ℕ) → waits w n ≡ false) }
    {
        let marks = no_marks(alloc, count)?;
        let list = Vec::new(alloc);
        Ok(Waiting { marks, list })
    }

    /// Whether a net is plain and waits.
    pub(crate) fn has_plain(&self, circuit: &Circuit, net: usize) -> bool
        ensures plain { result ≡ true → is_plain_at circuit.now net ≡ true }
        ensures no { result ≡ false → (waits self.now net ≡ false) ⊎ (is_plain_at circuit.now net ≡ false) }
    {
        net < self.marks.len() && self.marks[net] && is_plain(circuit, net)
    }

    /// Marks and lists a plain net, unless it waits.
    pub(crate) fn put(&mut self, circuit: &Circuit, net: usize) -> Result<(), NoMemory>
        requires { length self.old.marks.items ≡ length circuit.now.nets }
        ensures waited { OnOk result (HasWaited circuit.now self.old self.new) }
        ensures marked { OnOk result (IsPlain circuit.now net → waits self.new net ≡ true) }
    {
        if is_plain(circuit, net) && net < self.marks.len() && !self.marks[net] {
            append(&mut self.list, net)?;
            self.marks[net] = true;
        }
        Ok(())
    }

    /// Marks and lists the plain nets of a circuit.
    pub(crate) fn put_all(&mut self, circuit: &Circuit) -> Result<(), NoMemory>
        requires { length self.old.marks.items ≡ length circuit.now.nets }
        ensures waited { OnOk result (HasWaited circuit.now self.old self.new) }
        ensures all { OnOk result ((n : ℕ) → is_plain_at circuit.now n ≡ true → waits self.new n ≡ true) }
    {
        for net in 0..circuit.nets.len() {
            self.put(circuit, net)?;
        }
        Ok(())
    }

    /// Marks and lists the plain nets at the channels of the devices of these numbers.
    pub(crate) fn put_ends(&mut self, circuit: &Circuit, numbers: &[u32]) -> Result<(), NoMemory>
        requires { length self.old.marks.items ≡ length circuit.now.nets }
        ensures waited { OnOk result (HasWaited circuit.now self.old self.new) }
        ensures marked { OnOk result ((k : ℕ) (d : DeviceValue) → Among numbers.now k → At circuit.now.devices k d → (m n : ℕ) → Joins d m n → IsPlain circuit.now m → waits self.new m ≡ true) }
    {
        let devices = circuit.devices.as_slice();
        for number in numbers {
            if (*number as usize) < devices.len() {
                let device = &devices[*number as usize];
                self.put(circuit, device.left.0 as usize)?;
                self.put(circuit, device.right.0 as usize)?;
            }
        }
        Ok(())
    }

    /// Takes the marks of these nets away.
    pub(crate) fn forget(&mut self, nets: &[usize])
        ensures { HasForgotten nets.now self.old self.new }
    {
        for net in nets {
            unmark(&mut self.marks, *net);
        }
    }
}
