//! Words of the language.

ghost use Rattle.std.specs.Prelude.{◌≡◌, option_map};
ghost use Rattle.vrt_model.specs.Lists.{has_name};
ghost use Rattle.verilog_tokens.specs.Passed.{passed_directives};
ghost use Rattle.verilog_tokens.specs.Signs.{sign_of};
ghost use Rattle.verilog_tokens.specs.Words.{constant_sign, gate_word, statement_word, net_words, other_word, block_words, switch_words, word_sign};

use crate::token::{GateKind, Kind, PartKind};

/// The word of a statement or a direction.
fn statement(word: &[u8]) -> Option<Kind>
    ensures { option_map (λ kind. sign_of kind word.now) result ≡ statement_word word.now }
{
    if word == b"module".as_slice() {
        return Some(Kind::Module);
    }
    if word == b"endmodule".as_slice() {
        return Some(Kind::EndModule);
    }
    if word == b"input".as_slice() {
        return Some(Kind::Input);
    }
    if word == b"output".as_slice() {
        return Some(Kind::Output);
    }
    if word == b"wire".as_slice() {
        return Some(Kind::Wire);
    }
    if word == b"assign".as_slice() {
        return Some(Kind::Assign);
    }
    None
}

/// The word of a gate.
fn gate(word: &[u8]) -> Option<GateKind>
    ensures { result ≡ gate_word word.now }
{
    if word == b"and".as_slice() {
        return Some(GateKind::And);
    }
    if word == b"nand".as_slice() {
        return Some(GateKind::Nand);
    }
    if word == b"or".as_slice() {
        return Some(GateKind::Or);
    }
    if word == b"nor".as_slice() {
        return Some(GateKind::Nor);
    }
    if word == b"xor".as_slice() {
        return Some(GateKind::Xor);
    }
    if word == b"xnor".as_slice() {
        return Some(GateKind::Xnor);
    }
    if word == b"buf".as_slice() {
        return Some(GateKind::Buf);
    }
    if word == b"not".as_slice() {
        return Some(GateKind::Not);
    }
    None
}

/// Whether a word stands for nets or constants that are not supported.
fn is_net_word(word: &[u8]) -> bool
    ensures { result ≡ has_name net_words word.now }
{
    word == b"reg".as_slice()
        || word == b"inout".as_slice()
        || word == b"tri".as_slice()
        || word == b"tri0".as_slice()
        || word == b"tri1".as_slice()
        || word == b"wand".as_slice()
        || word == b"wor".as_slice()
        || word == b"supply0".as_slice()
        || word == b"supply1".as_slice()
        || word == b"integer".as_slice()
}

/// Whether a word begins a statement that is not supported.
fn is_block_word(word: &[u8]) -> bool
    ensures { result ≡ has_name block_words word.now }
{
    word == b"parameter".as_slice()
        || word == b"localparam".as_slice()
        || word == b"defparam".as_slice()
        || word == b"always".as_slice()
        || word == b"initial".as_slice()
        || word == b"function".as_slice()
        || word == b"task".as_slice()
        || word == b"generate".as_slice()
        || word == b"specify".as_slice()
        || word == b"primitive".as_slice()
}

/// Whether a word is that of a switch or a gate that is not supported.
fn is_switch_word(word: &[u8]) -> bool
    ensures { result ≡ has_name switch_words word.now }
{
    word == b"bufif0".as_slice()
        || word == b"bufif1".as_slice()
        || word == b"notif0".as_slice()
        || word == b"notif1".as_slice()
        || word == b"nmos".as_slice()
        || word == b"pmos".as_slice()
        || word == b"cmos".as_slice()
        || word == b"tran".as_slice()
}

/// A word that is none of a statement or a gate: not supported, or a name.
fn other(word: &[u8]) -> Kind
    ensures { sign_of result word.now ≡ other_word word.now }
{
    if is_net_word(word) || is_block_word(word) || is_switch_word(word) {
        Kind::Unsupported
    } else {
        Kind::Part(PartKind::Name)
    }
}

/// Of which kind a word is.
pub fn word_kind(word: &[u8]) -> Kind
    ensures { sign_of result word.now ≡ word_sign word.now }
{
    if let Some(kind) = statement(word) {
        return kind;
    }
    if let Some(kind) = gate(word) {
        return Kind::Gate(kind);
    }
    other(word)
}

/// Of which kind what begins with a digit is.
pub fn constant_kind(word: &[u8]) -> Kind
    ensures { sign_of result word.now ≡ constant_sign word.now }
{
    if word == b"1'b0".as_slice() {
        return Kind::Part(PartKind::Bit(false));
    }
    if word == b"1'b1".as_slice() {
        return Kind::Part(PartKind::Bit(true));
    }
    Kind::Unsupported
}

/// Whether the line of a directive is passed over.
pub fn is_passed_directive(word: &[u8]) -> bool
    ensures { result ≡ has_name passed_directives word.now }
{
    word == b"timescale".as_slice()
        || word == b"celldefine".as_slice()
        || word == b"endcelldefine".as_slice()
        || word == b"default_nettype".as_slice()
}
