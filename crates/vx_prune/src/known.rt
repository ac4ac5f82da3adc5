//! What statistics tell of operands.
ghost use Rattle.std.specs.Prelude.{◌≡◌};
ghost use Rattle.std.specs.Option.{option_map};
ghost use Rattle.std.specs.Ordering.{is_eq, is_lt, is_gt, is_ge};
ghost use Rattle.vx_data.specs.Scalar.{scalar_view};
ghost use Rattle.vx_rows.specs.Predicates.{pred_view};
ghost use Rattle.vx_prune.specs.Never.{is_count as counts, unknown as not_known, known_field, known_path, known_value, known, ranked, never_by, never_compare, is_false as false_value, never_true};
ghost use Rattle.vx_prune.specs.Binders.{sets_of, dtype_of, lent_value, known_view};

use crate::FileStatsBinder;
use crate::order::order;
use vx_data::{FieldPath, Scalar, Stat};
use vx_rows::{Comparison, Predicate};

/// What is known of an operand.
#[derive(Clone, Copy)]
pub struct Known<'a> {
    low: Option<&'a Scalar>,
    high: Option<&'a Scalar>,
    pub always_null: bool,
    pub never_null: bool,
}

/// Whether a count is this one.
fn is_count(value: Option<&Scalar>, count: u64) -> bool
    ensures { result ≡ counts (lent_value value.entry) count }
{
    match value {
        Some(Scalar::Int(number)) => *number == i128::from(count),
        Some(Scalar::Bool(_)) | Some(Scalar::Text(_)) | None => false,
    }
}

/// Nothing.
fn unknown<'a>() -> Known<'a>
    ensures { known_view result ≡ not_known }
{
    Known {
        low: None,
        high: None,
        always_null: false,
        never_null: false,
    }
}

/// What is known of a field, where there are so many rows.
pub fn known_of_field<'a>(binder: &FileStatsBinder<'a>, path: &FieldPath, rows: u64) -> Known<'a>
    ensures { known_view result ≡ known_field path.now (dtype_of binder.now) (sets_of binder.now) rows }
{
    let nulls = binder.stat(path, Stat::NullCount);
    Known {
        low: binder.stat(path, Stat::Min),
        high: binder.stat(path, Stat::Max),
        always_null: is_count(nulls, rows),
        never_null: is_count(nulls, 0),
    }
}

/// What is known of a field through any number of casts.
#[cycle(casts)]
pub fn known_of_path<'a>(
    binder: &FileStatsBinder<'a>,
    predicate: &Predicate,
    rows: u64,
) -> Known<'a>
    ensures { known_view result ≡ known_path (pred_view predicate.now) (dtype_of binder.now) (sets_of binder.now) rows }
{
    match predicate {
        Predicate::Field(path) => known_of_field(binder, path, rows),
        Predicate::Cast(_, p) => known_of_path(binder, p, rows),
        Predicate::Lit(_, _)
        | Predicate::Root
        | Predicate::Add(_, _)
        | Predicate::Compare(_, _, _)
        | Predicate::And(_, _)
        | Predicate::Or(_, _)
        | Predicate::Not(_)
        | Predicate::IsNull(_)
        | Predicate::NotNull(_) => unknown(),
    }
}

/// What is known of a literal.
fn known_of_value(value: &Option<Scalar>) -> Known<'_>
    ensures { known_view result ≡ known_value (option_map scalar_view value.now) }
{
    match value {
        None => Known {
            low: None,
            high: None,
            always_null: true,
            never_null: false,
        },
        Some(scalar) => Known {
            low: Some(scalar),
            high: Some(scalar),
            always_null: false,
            never_null: true,
        },
    }
}

/// What is known of an operand.
pub fn known_of<'a>(binder: &FileStatsBinder<'a>, predicate: &'a Predicate, rows: u64) -> Known<'a>
    ensures { known_view result ≡ known (pred_view predicate.now) (dtype_of binder.now) (sets_of binder.now) rows }
{
    match predicate {
        Predicate::Lit(_, value) => known_of_value(value),
        Predicate::Field(path) => known_of_field(binder, path, rows),
        Predicate::Cast(_, p) => known_of_path(binder, p, rows),
        Predicate::Root
        | Predicate::Add(_, _)
        | Predicate::Compare(_, _, _)
        | Predicate::And(_, _)
        | Predicate::Or(_, _)
        | Predicate::Not(_)
        | Predicate::IsNull(_)
        | Predicate::NotNull(_) => unknown(),
    }
}

fn is_below(a: Option<&Scalar>, b: Option<&Scalar>) -> bool
    ensures { result ≡ ranked is_lt (lent_value a.entry) (lent_value b.entry) }
{
    match (a, b) {
        (Some(a), Some(b)) => order(a, b).is_lt(),
        _ => false,
    }
}

fn is_above(a: Option<&Scalar>, b: Option<&Scalar>) -> bool
    ensures { result ≡ ranked is_gt (lent_value a.entry) (lent_value b.entry) }
{
    match (a, b) {
        (Some(a), Some(b)) => order(a, b).is_gt(),
        _ => false,
    }
}

fn is_not_below(a: Option<&Scalar>, b: Option<&Scalar>) -> bool
    ensures { result ≡ ranked is_ge (lent_value a.entry) (lent_value b.entry) }
{
    match (a, b) {
        (Some(a), Some(b)) => order(a, b).is_ge(),
        _ => false,
    }
}

fn is_equal(a: Option<&Scalar>, b: Option<&Scalar>) -> bool
    ensures { result ≡ ranked is_eq (lent_value a.entry) (lent_value b.entry) }
{
    match (a, b) {
        (Some(a), Some(b)) => order(a, b).is_eq(),
        _ => false,
    }
}

/// Whether a comparison of values within bounds is never true.
fn is_excluded(op: Comparison, a: Known, b: Known) -> bool
    ensures { result ≡ never_by op (known_view a.entry) (known_view b.entry) }
{
    match op {
        Comparison::Eq => is_below(a.high, b.low) || is_below(b.high, a.low),
        Comparison::Ne => {
            is_equal(a.low, a.high) && is_equal(a.high, b.low) && is_equal(b.low, b.high)
        }
        Comparison::Lt => is_not_below(a.low, b.high),
        Comparison::Le => is_above(a.low, b.high),
        Comparison::Gt => is_not_below(b.low, a.high),
        Comparison::Ge => is_above(b.low, a.high),
    }
}

/// Whether a comparison of operands is never true.
pub fn is_never_met(op: Comparison, a: Known, b: Known) -> bool
    ensures { result ≡ never_compare op (known_view a.entry) (known_view b.entry) }
{
    a.always_null || b.always_null || is_excluded(op, a, b)
}

fn is_false(value: Option<&Scalar>) -> bool
    ensures { result ≡ false_value (lent_value value.entry) }
{
    match value {
        Some(Scalar::Bool(b)) => !*b,
        Some(Scalar::Int(_)) | Some(Scalar::Text(_)) | None => false,
    }
}

/// Whether an operand is never true.
pub fn is_never_true(operand: Known) -> bool
    ensures { result ≡ never_true (known_view operand.entry) }
{
    operand.always_null || is_false(operand.high)
}
