//! Predicates on rows.

use vx_data::{DType, FieldPath, Scalar};

/// A comparison of two values.
#[derive(Clone, Copy, Debug, PartialEq, Eq)]
pub enum Comparison {
    Eq,
    Ne,
    Lt,
    Le,
    Gt,
    Ge,
}

/// What can be asked of a row. A null operand makes a comparison, a sum and a cast null; `And`, `Or` and `Not`
/// are Kleene's; `IsNull` and `NotNull` are never null.
#[derive(Debug, Drop)]
pub enum Predicate {
    /// A value of a type, or null.
    Lit(DType, Option<Scalar>),
    /// The row itself.
    Root,
    /// A field, by the names that lead to it. Of equal names the first counts.
    Field(FieldPath),
    /// An integer, as one of a type that holds each value of its own.
    Cast(DType, Box<Predicate>),
    /// A sum of integers of one type; null where it is not of that type.
    Add(Box<Predicate>, Box<Predicate>),
    Compare(Comparison, Box<Predicate>, Box<Predicate>),
    And(Box<Predicate>, Box<Predicate>),
    Or(Box<Predicate>, Box<Predicate>),
    Not(Box<Predicate>),
    IsNull(Box<Predicate>),
    NotNull(Box<Predicate>),
}
