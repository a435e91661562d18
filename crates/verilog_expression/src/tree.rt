//! Expressions.

use vrt_model::Text;

/// An expression over nets.
pub enum Expression {
    /// The bit of a net.
    Net(Text),
    /// `1'b0` or `1'b1`.
    Constant(bool),
    /// `~E`, which binds closest.
    Not(Box<Expression>),
    /// `E & F`, which binds closer than `^`.
    And(Box<Expression>, Box<Expression>),
    /// `E ^ F`, which binds closer than `|`: exactly one of the two.
    Xor(Box<Expression>, Box<Expression>),
    /// `E | F`, which binds closer than `?:`.
    Or(Box<Expression>, Box<Expression>),
    /// `C ? E : F`: E where C is 1, else F.
    Choice(Box<Expression>, Box<Expression>, Box<Expression>),
}

/// By hand, so that letting go of one is a call.
impl Drop for Expression {
    fn drop(self) {
        match self {
            Expression::Net(_net) => {}
            Expression::Constant(_bit) => {}
            Expression::Not(_e) => {}
            Expression::And(_e, _f) => {}
            Expression::Xor(_e, _f) => {}
            Expression::Or(_e, _f) => {}
            Expression::Choice(_c, _e, _f) => {}
        }
    }
}
