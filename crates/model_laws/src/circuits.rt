//! Laws of circuits: well-formed ones, and those whose gates have given values.

ghost use Rattle.std.specs.Prelude.{◌≡◌, ℕ, ◌<◌, Some, true, length};
ghost use Rattle.model_laws.specs.Logic.{IsLogic};
ghost use Rattle.model_laws.specs.OneCell.{IsOneCell};
ghost use Rattle.model_laws.specs.Ranks.{rank_of};
ghost use Rattle.vrt_model.proofs.GatesGiven.{HasGivenGates};
ghost use Rattle.vrt_model.specs.Networks.{HasRanges};
ghost use Rattle.vrt_model.specs.Assignment.{Assignment, IsAssignment, Surroundings};
ghost use Rattle.vrt_model.specs.CellRules.{is_observed_port};
ghost use Rattle.vrt_model.specs.Circuits.{IsCircuit};
ghost use Rattle.vrt_model.specs.Comparison.{CellPort, Comparison, cell_at, is_observed, output_signal, phase_at, ports_of};
ghost use Rattle.vrt_model.specs.Equal.{Agree};
ghost use Rattle.vrt_model.specs.Faults.{Assigns};
ghost use Rattle.vrt_model.specs.Known.{IsPlain, IsRanking, IsUnknown};
ghost use Rattle.vrt_model.specs.Levels.{least_level, source_level};
ghost use Rattle.vrt_model.specs.Lists.{Among, At};
ghost use Rattle.vrt_model.specs.Reading.{Partial, Reading, devices_of};
ghost use Rattle.vrt_model.specs.Response.{Fight, Float, IsResponse, Shows};
ghost use Rattle.vrt_model.specs.Solution.{IsSolution, SameObserved};
ghost use Rattle.vrt_model.specs.State.{IsState, Setting, State, network_of};
ghost use Rattle.vrt_model.specs.declared.circuit.Circuit.{Circuit};
ghost use Rattle.vrt_model.specs.declared.circuit.Device.{Device};
ghost use Rattle.vrt_model.specs.declared.circuit.FlatNet.{FlatNet};
ghost use Rattle.vrt_model.specs.declared.circuit.Hold.{Hold};
ghost use Rattle.vrt_model.specs.declared.circuit.NetKind.TheVariants.{Input};
ghost use Rattle.vrt_model.specs.declared.flat_model.FlatModel.{FlatModel};
ghost use Rattle.vrt_model.specs.declared.rules.Phase.{Phase};

/// What other laws ask of a circuit holds where it is well formed: its ranges, the levels of its devices below those of
/// sources, and the sizes of its holds below both.
#[tactic(auto, using(crate::proofs::WellFormed::circuit_ranges, crate::proofs::WellFormed::small_holds))]
pub fn well_formed()
    ensures ranges { (c : Circuit) → IsCircuit c → HasRanges c }
    ensures devices { (c : Circuit) → IsCircuit c → (d : Device) → Among (devices_of true c) d → d.level < source_level c }
    ensures holds { (c : Circuit) → IsCircuit c → (at : ℕ) (h : Hold) → At c.holds at h → h.size < least_level c }
{}

/// Where each gate is a net with a given value there is exactly one solution, whatever the observed nets are, and plain
/// nets rank above all others; an input is not known.
#[tactic(auto, using(crate::proofs::GivenRanks::some_solution, crate::proofs::GivenRanks::given_ranking, crate::proofs::GivenRanks::input_unknown))]
pub fn given_gates()
    ensures some { (c : Circuit) (phase : Phase) → HasGivenGates c → (setting : Setting) (observed : Reading) → (a : Partial) × IsSolution c phase observed setting a }
    ensures one { (c : Circuit) (phase : Phase) → HasGivenGates c → (setting : Setting) (observed : Reading) (a b : Partial) → IsSolution c phase observed setting a → IsSolution c phase observed setting b → SameObserved observed a b }
    ensures ranks { (c : Circuit) (phase : Phase) → HasGivenGates c → IsRanking c phase (rank_of c) }
    ensures inputs { (c : Circuit) (phase : Phase) (n : ℕ) (net : FlatNet) → At c.nets n net → net.kind ≡ Input → IsUnknown c phase n }
{}

/// A model without latches whose covers read inputs alone has exactly one assignment.
#[tactic(auto, using(crate::proofs::Assignments::some_assignment, crate::proofs::Assignments::one_signal))]
pub fn given_logic()
    ensures some { (flat : FlatModel) (around : Surroundings) → IsLogic flat around → (g : Assignment) × IsAssignment flat around g }
    ensures one { (flat : FlatModel) (around : Surroundings) → IsLogic flat around → (g h : Assignment) → IsAssignment flat around g → IsAssignment flat around h → (s : ℕ) → s < length flat.signals → g.signal s ≡ h.signal s }
{}

/// Circuit and model of such a cell agree where no plain net fights, no observed net floats, and each observed output
/// shows its signal's bit.
pub fn one_cell()
    ensures { (k : Comparison) (phase : ℕ) → IsOneCell k phase → (setting : Setting) (s : State) → IsState k.circuit (phase_at k.rules phase) setting.inputs s → ((n : ℕ) → IsPlain k.circuit n → ¬ IsResponse (network_of k.circuit true setting.held s) n Fight) → ((n : ℕ) → is_observed k phase n ≡ true → ¬ IsResponse (network_of k.circuit true setting.held s) n Float) → ((g : Assignment) (at : ℕ) (port : CellPort) (signal : ℕ) → Assigns k phase setting g → At (ports_of k) at port → output_signal port.role ≡ Some signal → is_observed_port k.rules (cell_at k.design k.cell).name port.name phase ≡ true → IsResponse (network_of k.circuit true setting.held s) port.net (Shows (g.signal signal))) → Agree k phase setting }
{}
