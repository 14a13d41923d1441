//! Expressions.

use domains::Value;

/// How a comparison relates its two operands.
#[derive(Clone, Copy)]
pub enum Relation {
    Equal,
    Differs,
    Less,
    AtMost,
    More,
    AtLeast,
}

/// The kind of a value: a truth value, a whole number or a symbol.
#[derive(Clone, Copy)]
pub enum ValueKind {
    Truth,
    Whole,
    Symbol,
}

/// An expression over variables of the type `V`.
///
/// `All` is a conjunction and `Any` a disjunction. The bool of a part of a `Sum` is true for plus.
/// A sum is folded from 0 and a product from 1, from left to right, with clamping at each step.
/// `Least` and `Greatest` give an operand's value, `Count` the number of true operands. `Choose`
/// takes the value of the first case whose test is true, and else that of its last expression.
#[derive(Drop)]
pub enum Expr<V> {
    Constant(Value),
    Variable(V),
    Not(Box<Expr<V>>),
    All(Vec<Expr<V>>),
    Any(Vec<Expr<V>>),
    Compare(Relation, Box<Expr<V>>, Box<Expr<V>>),
    Sum(Vec<(bool, Expr<V>)>),
    Product(Vec<Expr<V>>),
    Least(Vec<Expr<V>>),
    Greatest(Vec<Expr<V>>),
    Count(Vec<Expr<V>>),
    Choose(Vec<(Expr<V>, Expr<V>)>, Box<Expr<V>>),
}
