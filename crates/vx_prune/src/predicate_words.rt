//! Reads predicates from words.
ghost use Rattle.std.specs.Prelude.{◌≡◌, map, string_bytes, true, Some};
ghost use Rattle.vx_base.specs.Checks.{Gives, ◌lacking◌};
ghost use Rattle.vx_data.specs.declared.text_error.TextError.TheVariants.{BadText};
ghost use Rattle.vx_data.specs.TextsRead.{FailsToRead};
ghost use Rattle.vx_rows.specs.Predicates.{pred_view};
ghost use Rattle.vx_prune.specs.PredicateWords.{has_one_operand, has_two_operands, names_of, node_named, literal_in, field_in, pair_in, cast_in, node_in, word_in, predicate_in, predicate_of};

use crate::literal::literal;
use crate::node::{Node, node_of};
use std::alloc::Global;
use vx_data::{DType, FieldPath, TextError, after, read_quoted};
use vx_rows::Predicate;

/// How many nodes lie one in the other at most.
const MOST_LEVELS: usize = 64;

/// The names of a path: quoted names, joined by `/`. No path has more names than its text has bytes.
#[tactic(auto, using(crate::proofs::NameSteps::name_steps))]
fn names(alloc: Global, text: &[u8]) -> Result<Vec<String>, TextError>
    ensures { Gives FailsToRead (λ names. map string_bytes names.items) result (BadText lacking names_of text.now) }
{
    let mut names = Vec::new(alloc);
    let mut left = text;
    for _name in 0..text.len() {
        let (name, behind) = read_quoted(alloc, left)?;
        names.push(name)?;
        if behind.is_empty() {
            return Ok(names);
        }
        let Some(more) = after(behind, b"/") else {
            return Err(TextError::BadText);
        };
        left = more;
    }
    Err(TextError::BadText)
}

/// A type and a value of it, and the words behind.
fn read_literal(alloc: Global, words: &[String]) -> Result<(Predicate, &[String]), TextError>
    ensures { Gives FailsToRead (λ x. (pred_view x.0, map string_bytes x.1.now)) result (BadText lacking literal_in (map string_bytes words.now)) }
{
    let [dtype, value, rest @ ..] = words else {
        return Err(TextError::BadText);
    };
    let dtype = DType::from_text(alloc, dtype.as_str())?;
    let value = literal(alloc, &dtype, value.as_str())?;
    Ok((Predicate::Lit(dtype, value), rest))
}

/// A path, and the words behind.
fn read_field(alloc: Global, words: &[String]) -> Result<(Predicate, &[String]), TextError>
    ensures { Gives FailsToRead (λ x. (pred_view x.0, map string_bytes x.1.now)) result (BadText lacking field_in (map string_bytes words.now)) }
{
    let [path, rest @ ..] = words else {
        return Err(TextError::BadText);
    };
    let names = names(alloc, path.as_str().as_bytes())?;
    Ok((Predicate::Field(FieldPath::new(names)), rest))
}

/// A predicate in a box, and the words behind it.
#[cycle(reading)]
fn read_operand(
    alloc: Global,
    levels: usize,
    words: &[String],
) -> Result<(Box<Predicate>, &[String]), TextError>
    ensures { Gives FailsToRead (λ x. (pred_view x.0.value, map string_bytes x.1.now)) result
        (BadText lacking predicate_in levels (map string_bytes words.now)) }
{
    let (predicate, rest) = read_front(alloc, levels, words)?;
    Ok((Box::new(alloc, predicate)?, rest))
}

/// A type and an operand, and the words behind.
#[cycle(reading)]
fn read_cast(
    alloc: Global,
    levels: usize,
    words: &[String],
) -> Result<(Predicate, &[String]), TextError>
    ensures { Gives FailsToRead (λ x. (pred_view x.0, map string_bytes x.1.now)) result
        (BadText lacking cast_in (predicate_in levels) (map string_bytes words.now)) }
{
    let [dtype, rest @ ..] = words else {
        return Err(TextError::BadText);
    };
    let dtype = DType::from_text(alloc, dtype.as_str())?;
    let (operand, rest) = read_operand(alloc, levels, rest)?;
    Ok((Predicate::Cast(dtype, operand), rest))
}

/// Two operands, and the words behind them.
#[cycle(reading)]
fn read_two(
    alloc: Global,
    levels: usize,
    words: &[String],
) -> Result<(Box<Predicate>, Box<Predicate>, &[String]), TextError>
    ensures { Gives FailsToRead (λ x. (pred_view x.0.value, pred_view x.1.value, map string_bytes x.2.now)) result
        (BadText lacking pair_in (predicate_in levels) (map string_bytes words.now)) }
{
    let (first, behind) = read_operand(alloc, levels, words)?;
    let (second, rest) = read_operand(alloc, levels, behind)?;
    Ok((first, second, rest))
}

/// A node of one operand, and the words behind.
#[cycle(reading)]
fn read_test(
    alloc: Global,
    levels: usize,
    node: Node,
    words: &[String],
) -> Result<(Predicate, &[String]), TextError>
    requires { has_one_operand node ≡ true }
    ensures { Gives FailsToRead (λ x. (pred_view x.0, map string_bytes x.1.now)) result
        (BadText lacking node_in (predicate_in levels) (Some node) (map string_bytes words.now)) }
{
    let (p, rest) = read_operand(alloc, levels, words)?;
    match node {
        Node::Not => Ok((Predicate::Not(p), rest)),
        Node::IsNull => Ok((Predicate::IsNull(p), rest)),
        Node::NotNull => Ok((Predicate::NotNull(p), rest)),
        _ => unreachable!(),
    }
}

/// A node of two operands, and the words behind.
#[cycle(reading)]
fn read_pair(
    alloc: Global,
    levels: usize,
    node: Node,
    words: &[String],
) -> Result<(Predicate, &[String]), TextError>
    requires { has_two_operands node ≡ true }
    ensures { Gives FailsToRead (λ x. (pred_view x.0, map string_bytes x.1.now)) result
        (BadText lacking node_in (predicate_in levels) (Some node) (map string_bytes words.now)) }
{
    let (p, q, rest) = read_two(alloc, levels, words)?;
    match node {
        Node::Add => Ok((Predicate::Add(p, q), rest)),
        Node::Compare(op) => Ok((Predicate::Compare(op, p, q), rest)),
        Node::And => Ok((Predicate::And(p, q), rest)),
        Node::Or => Ok((Predicate::Or(p, q), rest)),
        _ => unreachable!(),
    }
}

/// A node with its operands, of so many levels at most, and the words behind.
#[cycle(reading)]
fn read_node(
    alloc: Global,
    levels: usize,
    node: Node,
    words: &[String],
) -> Result<(Predicate, &[String]), TextError>
    ensures { Gives FailsToRead (λ x. (pred_view x.0, map string_bytes x.1.now)) result
        (BadText lacking node_in (predicate_in levels) (Some node) (map string_bytes words.now)) }
{
    match node {
        Node::Lit => read_literal(alloc, words),
        Node::Root => Ok((Predicate::Root, words)),
        Node::Field => read_field(alloc, words),
        Node::Cast => read_cast(alloc, levels, words),
        Node::Not | Node::IsNull | Node::NotNull => read_test(alloc, levels, node, words),
        Node::Add | Node::Compare(_) | Node::And | Node::Or => {
            read_pair(alloc, levels, node, words)
        }
    }
}

/// The node of a word with its operands, of so many levels at most, and the words behind.
#[cycle(reading)]
fn read_named<'a>(
    alloc: Global,
    levels: usize,
    word: &str,
    words: &'a [String],
) -> Result<(Predicate, &'a [String]), TextError>
    ensures { Gives FailsToRead (λ x. (pred_view x.0, map string_bytes x.1.now)) result
        (BadText lacking node_in (predicate_in levels) (node_named word.now) (map string_bytes words.now)) }
{
    match node_of(word) {
        Some(node) => read_node(alloc, levels, node, words),
        None => Err(TextError::BadText),
    }
}

/// The node of the first word with its operands, of so many levels at most, and the words behind.
#[cycle(reading)]
fn read_word(
    alloc: Global,
    levels: usize,
    words: &[String],
) -> Result<(Predicate, &[String]), TextError>
    ensures { Gives FailsToRead (λ x. (pred_view x.0, map string_bytes x.1.now)) result
        (BadText lacking word_in (predicate_in levels) (map string_bytes words.now)) }
{
    let [word, rest @ ..] = words else {
        return Err(TextError::BadText);
    };
    read_named(alloc, levels, word.as_str(), rest)
}

/// A predicate of so many levels at most in front of words, and the words behind it.
#[cycle(reading)]
#[tactic(auto, unfolding(crate::specs::PredicateWords::predicate_in))]
fn read_front(
    alloc: Global,
    levels: usize,
    words: &[String],
) -> Result<(Predicate, &[String]), TextError>
    ensures { Gives FailsToRead (λ x. (pred_view x.0, map string_bytes x.1.now)) result (BadText lacking predicate_in levels (map string_bytes words.now)) }
{
    if levels == 0 {
        return Err(TextError::BadText);
    }
    read_word(alloc, levels - 1, words)
}

/// The predicate that words spell, each node in front of its operands, in which at most 64 nodes lie one in the
/// other. Words that are not one predicate are refused.
#[tactic(auto, unfolding(crate::specs::PredicateWords::predicate_of))]
pub fn read_predicate(alloc: Global, words: &[String]) -> Result<Predicate, TextError>
    ensures { Gives FailsToRead pred_view result (BadText lacking predicate_of (map string_bytes words.now)) }
{
    let (predicate, rest) = read_front(alloc, MOST_LEVELS, words)?;
    if !rest.is_empty() {
        return Err(TextError::BadText);
    }
    Ok(predicate)
}
