//! The functions of covers.

ghost use Rattle.std.specs.Prelude.{◌≡◌, ◌∷◌, [], IfOk, List, ℕ};
ghost use Rattle.verilog_models.specs.Covers.{cover_of, is_on, row_of, rows_of};

use std::alloc::Global;
use vrt_model::{CoverLine, NoMemory, Seq, Text};

/// What a cover computes of its inputs.
#[derive(Clone, Copy)]
pub enum Function {
    /// A constant, of no input.
    Constant(bool),
    /// The only input.
    Same,
    /// Its complement.
    Not,
    /// 1 where all inputs are.
    And,
    /// 0 where all inputs are 1.
    Nand,
    /// 1 where some input is.
    Or,
    /// 0 where some input is 1.
    Nor,
    /// 1 where exactly one of two inputs is.
    Xor,
    /// 0 where exactly one of two inputs is 1.
    Xnor,
    /// The second of three inputs where the first is 1, else the third.
    Choice,
}

/// A list of one text.
pub fn one(alloc: Global, text: Text) -> Result<Seq<Text>, NoMemory>
    ensures { IfOk result (λ texts. texts ≡ text ∷ []) }
{
    let mut texts = Seq::new(alloc);
    texts.append(text)?;
    Ok(texts)
}

/// A list of two texts.
pub fn two(alloc: Global, first: Text, second: Text) -> Result<Seq<Text>, NoMemory>
    ensures { IfOk result (λ texts. texts ≡ first ∷ second ∷ []) }
{
    let mut texts = one(alloc, first)?;
    texts.append(second)?;
    Ok(texts)
}

/// A list of three texts.
pub fn three(alloc: Global, first: Text, second: Text, third: Text) -> Result<Seq<Text>, NoMemory>
    ensures { IfOk result (λ texts. texts ≡ first ∷ second ∷ third ∷ []) }
{
    let mut texts = two(alloc, first, second)?;
    texts.append(third)?;
    Ok(texts)
}

/// A row with this byte for each input, alone.
fn even_row(alloc: Global, byte: u8, inputs: &[Text]) -> Result<Seq<Text>, NoMemory>
    ensures { IfOk result (λ rows. rows ≡ row_of byte inputs.now ∷ []) }
{
    let mut row = Text::new(alloc);
    for _input in inputs {
        row.extend(&[byte])?;
    }
    one(alloc, row)
}

/// Two rows.
fn two_rows(alloc: Global, first: &[u8], second: &[u8]) -> Result<Seq<Text>, NoMemory>
    ensures { IfOk result (λ rows. rows ≡ first.now ∷ second.now ∷ []) }
{
    let first = Text::from_bytes(alloc, first)?;
    let second = Text::from_bytes(alloc, second)?;
    two(alloc, first, second)
}

/// The rows of a constant.
fn constant_rows(alloc: Global, bit: bool) -> Result<Seq<Text>, NoMemory>
    ensures { (inputs : List (List ℕ)) → IfOk result (λ rows. rows ≡ rows_of (Function.Constant bit) inputs) }
{
    if bit {
        return one(alloc, Text::new(alloc));
    }
    Ok(Seq::new(alloc))
}

/// The rows of a function.
fn rows(alloc: Global, function: Function, inputs: &[Text]) -> Result<Seq<Text>, NoMemory>
    ensures { IfOk result (λ rows. rows ≡ rows_of function inputs.now) }
{
    match function {
        Function::Constant(bit) => constant_rows(alloc, bit),
        Function::Same => even_row(alloc, b'1', inputs),
        Function::Not => even_row(alloc, b'0', inputs),
        Function::And => even_row(alloc, b'1', inputs),
        Function::Nand => even_row(alloc, b'1', inputs),
        Function::Or => even_row(alloc, b'0', inputs),
        Function::Nor => even_row(alloc, b'0', inputs),
        Function::Xor => two_rows(alloc, b"10".as_slice(), b"01".as_slice()),
        Function::Xnor => two_rows(alloc, b"11".as_slice(), b"00".as_slice()),
        Function::Choice => two_rows(alloc, b"11-".as_slice(), b"0-1".as_slice()),
    }
}

/// Whether the rows of a function are the inputs at which it is 1.
fn has_on_rows(function: Function) -> bool
    ensures { result ≡ is_on function }
{
    match function {
        Function::Nand => false,
        Function::Or => false,
        _ => true,
    }
}

/// The cover that gives a signal the function of others.
pub fn cover(
    alloc: Global,
    line: u32,
    function: Function,
    inputs: Seq<Text>,
    output: Text,
) -> Result<CoverLine, NoMemory>
    ensures { IfOk result (λ made. made ≡ cover_of line function inputs output) }
{
    let rows = rows(alloc, function, inputs.as_slice())?;
    Ok(CoverLine {
        line,
        inputs,
        output,
        on: has_on_rows(function),
        rows,
    })
}
