//! Laws on modules and their models.

ghost use Rattle.std.specs.Prelude.{◌≡◌, ◌≤◌, ◌++◌, ◌∷◌, [], ℕ, Bool, List, length};
ghost use Rattle.verilog_meaning.specs.Cells.{DoesAsSaid, IsOfModule};
ghost use Rattle.verilog_meaning.specs.Covered.{AreCovered};
ghost use Rattle.verilog_meaning.specs.FlatBits.{IsExact};
ghost use Rattle.verilog_meaning.specs.Meaning.{Holds};
ghost use Rattle.verilog_models.specs.Models.{blif_of, model_of};
ghost use Rattle.verilog_source.specs.Grammar.{IsSource};
ghost use Rattle.verilog_source.specs.Modules.{Entry, Module};
ghost use Rattle.verilog_tokens.specs.Signs.{Token};
ghost use Rattle.verilog_tokens.specs.Tokens.{tokens_of};
ghost use Rattle.vrt_model.specs.Comparison.{Comparison};
ghost use Rattle.vrt_model.specs.Equal.{IsEqual};
ghost use Rattle.vrt_model.specs.Inputs.{IsBlif};
ghost use Rattle.vrt_model.specs.Lists.{Among, At};
ghost use Rattle.vrt_model.specs.Models.{AreModels};

/// Where each cover of a module's model gives its output's bit, each assigned name has the value of its expression, and each output of
/// a gate the function of the values of its inputs.
pub fn covers_mean()
    ensures { (ts : List Token) (ms : List Module) (m : Module) → IsSource ts ms → Among ms m → (bits : List ℕ → Bool) → AreCovered bits (model_of m).covers → (e : Entry) → Among m.entries e → Holds bits e }
{}

/// The flat models of the modules of a text say exactly what these mean: the tokens of the text before its last are the modules, and
/// their models can be unrolled.
pub fn texts_mean()
    ensures { (text : List ℕ) (front : List Token) (last : Token) (ms : List Module) (k : ℕ) (top : Module) → length text ≤ 16777216 → tokens_of text ≡ front ++ last ∷ [] → IsSource front ms → IsBlif (blif_of ms) → AreModels (blif_of ms) → At ms k top → IsExact ms k top }
{}

/// A cell that is equal to the flat model of a module does what the module means: at each setting that meets the constraints the module
/// means something with these bits of its inputs, and at each observed output port the circuit has the bit of its net in each such meaning.
pub fn equal_cells_do()
    ensures { (c : Comparison) (ms : List Module) (k : ℕ) (top : Module) → IsExact ms k top → IsOfModule c ms k top → IsEqual c → DoesAsSaid c ms k top }
{}
