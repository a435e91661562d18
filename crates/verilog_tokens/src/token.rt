//! What a token is.

/// A gate, by its function.
#[derive(Clone, Copy)]
pub enum GateKind {
    /// `and`: 1 where all inputs are.
    And,
    /// `nand`: 0 where all inputs are 1.
    Nand,
    /// `or`: 1 where some input is.
    Or,
    /// `nor`: 0 where some input is 1.
    Nor,
    /// `xor`: 1 where an odd number of inputs is.
    Xor,
    /// `xnor`: 0 where an odd number of inputs is 1.
    Xnor,
    /// `buf`: each output is the input.
    Buf,
    /// `not`: each output is the complement of the input.
    Not,
}

/// What stands in expressions.
#[derive(Clone, Copy)]
pub enum PartKind {
    /// A name: plain, or escaped by a `\`.
    Name,
    /// `1'b0` or `1'b1`.
    Bit(bool),
    /// `~`
    Tilde,
    /// `&`
    Ampersand,
    /// `^`
    Caret,
    /// `|`
    Bar,
    /// `?`
    Question,
    /// `:`
    Colon,
    /// `(`
    Opening,
    /// `)`
    Closing,
}

/// Of which kind a token is. The last four are no tokens of gate-level Verilog.
#[derive(Clone, Copy)]
pub enum Kind {
    /// A part of expressions.
    Part(PartKind),
    /// `,`
    Comma,
    /// `;`
    Semicolon,
    /// `.`
    Dot,
    /// `=`
    Equals,
    /// `module`
    Module,
    /// `endmodule`
    EndModule,
    /// `input`
    Input,
    /// `output`
    Output,
    /// `wire`
    Wire,
    /// `assign`
    Assign,
    /// The word of a gate.
    Gate(GateKind),
    /// A byte that is no text, or an escaped name with one.
    NotText,
    /// A word or a sign that is not supported, or a byte that begins no token.
    Unsupported,
    /// A comment or an attribute that does not end.
    OpenComment,
    /// The end of the text.
    End,
}

/// A token, where it stands in the text.
#[derive(Clone, Copy)]
pub struct Token<'a> {
    /// Its line, from 1.
    pub line: u32,
    /// Of which kind it is.
    pub kind: Kind,
    /// The bytes of a name, without the `\` of an escaped one, or of what is not supported. Those of others have no
    /// meaning.
    pub bytes: &'a [u8],
}
