//! Plans of types.
ghost use Rattle.std.specs.Prelude.{◌≡◌, ◌++◌, map, string_bytes, IfOk, OnOk};
ghost use Rattle.vx_data.specs.Dtype.{dtype_view, fields_view, pairs_view};
ghost use Rattle.vx_write.specs.Strategies.{later as last_of, of_itself, own as own_in, below as below_in, rule_below as shortened};
ghost use Rattle.vx_write.specs.Plans.{plan_view, plans_view, plan_of, plans_for, planned, validity_of, IsFor};
ghost use Rattle.vx_write.specs.Rules.{rule_seen, rules_seen};

use crate::plan::Plan;
use crate::{LayoutStrategy, LeafStrategy};
use std::alloc::{AllocError, Global};
use vx_data::{DType, FieldPath, Fields};

/// The strategy of a rule where it is one of a column itself, or else that of the rules before it.
fn later(
    names: &[String],
    strategy: LeafStrategy,
    before: Option<LeafStrategy>,
) -> Option<LeafStrategy>
    ensures { result ≡ last_of (of_itself (map string_bytes names.now, strategy)) before }
{
    if names.is_empty() {
        return Some(strategy);
    }
    before
}

/// What is said of a column itself.
#[tactic(auto, using(crate::proofs::RuleLemmas::own_more, crate::proofs::RuleLemmas::own_end))]
fn own(rules: &[(&[String], LeafStrategy)]) -> Option<LeafStrategy>
    ensures { result ≡ own_in (rules_seen rules.now) }
{
    let mut found = None;
    for at in 0..rules.len() {
        let rule = &rules[at];
        found = later(rule.0, rule.1, found);
    }
    found
}

/// Adds a rule of which the first name is this one, without it.
fn push_below<'a>(
    kept: &mut Vec<(&'a [String], LeafStrategy)>,
    names: &'a [String],
    strategy: LeafStrategy,
    name: &str,
) -> Result<(), AllocError>
    ensures { OnOk result (rules_seen kept.new.items ≡ rules_seen kept.old.items ++ shortened name.now (map string_bytes names.now) strategy) }
{
    match names.split_first() {
        None => Ok(()),
        Some((first, rest)) => {
            if first.as_str() == name {
                kept.push((rest, strategy))?;
            }
            Ok(())
        }
    }
}

/// What is said of the columns below a field.
fn below<'a>(
    alloc: Global,
    rules: &[(&'a [String], LeafStrategy)],
    name: &str,
) -> Result<Vec<(&'a [String], LeafStrategy)>, AllocError>
    ensures { IfOk result (λ kept. rules_seen kept.items ≡ below_in name.now (rules_seen rules.now)) }
{
    let mut kept = Vec::new(alloc);
    for at in 0..rules.len() {
        let rule = &rules[at];
        push_below(&mut kept, rule.0, rule.1, name)?;
    }
    Ok(kept)
}

/// The plans of fields.
#[cycle(planning)]
fn plan_fields(
    alloc: Global,
    default: LeafStrategy,
    rules: &[(&[String], LeafStrategy)],
    fields: &[(String, DType)],
) -> Result<Vec<Plan>, AllocError>
    ensures { IfOk result (λ plans. plans_view plans.items ≡ plans_for default (rules_seen rules.now) (pairs_view fields.now)) }
{
    let mut plans = Vec::new(alloc);
    for at in 0..fields.len() {
        let field = &fields[at];
        let inner = below(alloc, rules, field.0.as_str())?;
        plans.push(plan_type(alloc, default, &inner, &field.1)?)?;
    }
    Ok(plans)
}

/// The plan of a type.
#[cycle(planning)]
fn plan_type(
    alloc: Global,
    default: LeafStrategy,
    rules: &[(&[String], LeafStrategy)],
    dtype: &DType,
) -> Result<Plan, AllocError>
    ensures { IfOk result (λ plan. plan_view plan ≡ plan_of default (rules_seen rules.now) (dtype_view dtype.now)) }
{
    if let Some(strategy) = own(rules) {
        return Ok(Plan::Leaf(strategy));
    }
    match dtype {
        DType::Struct(fields, nullable) => {
            let plans = plan_fields(alloc, default, rules, fields.as_slice())?;
            let validity = if *nullable { Some(default) } else { None };
            Ok(Plan::Struct(validity, plans))
        }
        DType::Bool(_) | DType::Int(_, _) | DType::Text(_) => Ok(Plan::Leaf(default)),
    }
}

/// The rules, each with the names of its path.
fn names_of(
    alloc: Global,
    rules: &[(FieldPath, LeafStrategy)],
) -> Result<Vec<(&[String], LeafStrategy)>, AllocError>
    ensures { IfOk result (λ named. rules_seen named.items ≡ rules.now) }
{
    let mut named = Vec::new(alloc);
    for at in 0..rules.len() {
        let rule = &rules[at];
        named.push((rule.0.parts(), rule.1))?;
    }
    Ok(named)
}

impl LayoutStrategy {
    /// How the rows of a type are laid out. Only memory refuses.
    #[tactic(auto, using(crate::proofs::PlanLemmas::planned_is_for))]
    pub(crate) fn plan(&self, alloc: Global, dtype: &DType) -> Result<Plan, AllocError>
        ensures value { IfOk result (λ plan. plan_view plan ≡ planned self.now (dtype_view dtype.now)) }
        ensures fit { IfOk result (λ plan. IsFor (plan_view plan) (dtype_view dtype.now)) }
    {
        let rules = names_of(alloc, self.rules())?;
        let plan = plan_type(alloc, self.default(), &rules, dtype)?;
        Ok(plan)
    }
}
