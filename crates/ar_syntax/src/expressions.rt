//! Expressions.

use crate::paths::Path;
use ar_base::{Place, Span};

/// A relation between two values.
#[derive(Clone, Copy)]
pub enum RawRelation {
    /// `==`
    Equal,
    /// `!=`
    Differs,
    /// `<`
    Less,
    /// `<=`
    AtMost,
    /// `>`
    More,
    /// `>=`
    AtLeast,
}

/// An expression and where it stands.
#[cycle(raw)]
#[derive(Drop)]
pub struct RawExpr {
    /// The place of its first token, a bracket included.
    pub at: Place,
    /// The bytes from its first token to its last.
    pub span: Span,
    /// What it is.
    pub form: RawForm,
}

/// What an expression is.
#[cycle(raw)]
#[derive(Drop)]
pub enum RawForm {
    /// `true` or `false`
    Truth(bool),
    /// A whole number.
    Whole(i64),
    /// A real number, whose value plays no part.
    Real,
    /// A path.
    Path(Path),
    /// `not A`
    Not(Box<RawExpr>),
    /// `- A`
    Minus(Box<RawExpr>),
    /// `A and B and C`, two operands or more.
    All(Vec<RawExpr>),
    /// `A or B or C`, two operands or more.
    Any(Vec<RawExpr>),
    /// `A == B` and the other relations.
    Compare(RawRelation, Box<RawExpr>, Box<RawExpr>),
    /// `A + B - C`, two terms or more; true stands with a term that is added. The first term is.
    Sum(Vec<(bool, RawExpr)>),
    /// `A * B * C`, two factors or more.
    Product(Vec<RawExpr>),
    /// `min(A, B)`, one operand or more.
    Least(Vec<RawExpr>),
    /// `max(A, B)`, one operand or more.
    Greatest(Vec<RawExpr>),
    /// `count(A, B)`, one operand or more.
    Count(Vec<RawExpr>),
    /// The cases of a choice, each a test and a value, one or more, and the value where no test holds.
    /// `if C then A else B` is a choice with one case.
    Choose(Vec<(RawExpr, RawExpr)>, Box<RawExpr>),
}
