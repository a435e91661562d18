//! Learning the bits that the nets of a shut region show.

ghost use Rattle.std.specs.Prelude.{◌≡◌, ℕ, ◌<◌, ◌≤◌, ◌⊎◌, Bool, Some, false, true, is_some, length, IfOk};
ghost use Rattle.known_nets.specs.Incidence.{IsIncidence};
ghost use Rattle.known_nets.specs.KnownTables.{known_at};
ghost use Rattle.known_nets.specs.Learned.{HasNoted, shown_of, unknown};
ghost use Rattle.vrt_model.specs.Lists.{Among};

use crate::conducting::known_bit;
use crate::incidence::Incidence;
use crate::signals::{Tables, shown};
use crate::waiting::Waiting;
use vrt_model::{Circuit, NoMemory};

/// Notes the bit of a net that is not known yet, if there is one, and says whether it did.
fn note(known: &mut Vec<Option<bool>>, net: usize, bit: Option<bool>) -> bool
    requires { net < length known.old.items }
    ensures size { length known.new.items ≡ length known.old.items }
    ensures grown { (n : ℕ) (v : Bool) → known_at known.old.items n ≡ Some v → known_at known.new.items n ≡ Some v }
    ensures noted { is_some bit ≡ true → is_some (known_at known.new.items net) ≡ true }
    ensures only { (n : ℕ) (v : Bool) → known_at known.new.items n ≡ Some v → (known_at known.old.items n ≡ Some v) ⊎ ((n ≡ net) × (bit ≡ Some v)) }
    ensures same { result ≡ false → known.new.items ≡ known.old.items }
    ensures falls { unknown known.new.items ≤ unknown known.old.items }
    ensures less { result ≡ true → unknown known.new.items < unknown known.old.items }
{
    if bit.is_some() && known_bit(known.as_slice(), net).is_none() {
        known[net] = bit;
        true
    } else {
        false
    }
}

/// Notes the bit of a net that is not known yet, if there is one; the nets at the devices that it gates are then to be
/// looked at. Says whether it did.
fn learn_net(
    circuit: &Circuit,
    by: &Incidence,
    net: usize,
    bit: Option<bool>,
    known: &mut Vec<Option<bool>>,
    waiting: &mut Waiting,
) -> Result<bool, NoMemory>
    requires by { IsIncidence circuit.now by.now }
    requires net { net < length known.old.items }
    requires known { length known.old.items ≡ length circuit.now.nets }
    requires marks { length waiting.old.marks.items ≡ length circuit.now.nets }
    ensures step { IfOk result (λ more. HasNoted circuit.now more known.old.items known.new.items waiting.old waiting.new) }
    ensures noted { IfOk result (λ _. is_some bit ≡ true → is_some (known_at known.new.items net) ≡ true) }
    ensures only { IfOk result (λ _. (n : ℕ) (v : Bool) → known_at known.new.items n ≡ Some v → (known_at known.old.items n ≡ Some v) ⊎ ((n ≡ net) × (bit ≡ Some v))) }
{
    let noted = note(known, net, bit);
    if noted {
        waiting.put_ends(circuit, by.gates[net].as_slice())?;
        Ok(true)
    } else {
        Ok(false)
    }
}

/// Notes the bits that these nets show by the values that reach them, and says whether any was not known before.
pub(crate) fn learn(
    circuit: &Circuit,
    by: &Incidence,
    nets: &[usize],
    tables: &Tables,
    known: &mut Vec<Option<bool>>,
    waiting: &mut Waiting,
) -> Result<bool, NoMemory>
    requires by { IsIncidence circuit.now by.now }
    requires nets { (n : ℕ) → Among nets.now n → n < length known.old.items }
    requires known { length known.old.items ≡ length circuit.now.nets }
    requires marks { length waiting.old.marks.items ≡ length circuit.now.nets }
    ensures step { IfOk result (λ more. HasNoted circuit.now more known.old.items known.new.items waiting.old waiting.new) }
    ensures found { IfOk result (λ _. (n : ℕ) → Among nets.now n → is_some (shown_of tables.now.zeros.table.items tables.now.ones.table.items n) ≡ true → is_some (known_at known.new.items n) ≡ true) }
    ensures only { IfOk result (λ _. (n : ℕ) (v : Bool) → known_at known.new.items n ≡ Some v → (known_at known.old.items n ≡ Some v) ⊎ (Among nets.now n × (shown_of tables.now.zeros.table.items tables.now.ones.table.items n ≡ Some v))) }
{
    let mut more = false;
    for net in nets {
        let bit = shown(tables, *net);
        let learned = learn_net(circuit, by, *net, bit, known, waiting)?;
        more |= learned;
    }
    Ok(more)
}
