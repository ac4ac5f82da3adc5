//! The words of the nodes of predicates.
ghost use Rattle.std.specs.Prelude.{◌≡◌};
ghost use Rattle.vx_prune.specs.PredicateWords.{node_named};

use vx_rows::Comparison;

/// A node of a predicate, by its word.
#[derive(Clone, Copy, Debug, PartialEq, Eq)]
pub(crate) enum Node {
    Lit,
    Root,
    Field,
    Cast,
    Add,
    Compare(Comparison),
    And,
    Or,
    Not,
    IsNull,
    NotNull,
}

/// The node that a word names.
pub(crate) fn node_of(word: &str) -> Option<Node>
    ensures { result ≡ node_named word.now }
{
    match word {
        "lit" => Some(Node::Lit),
        "root" => Some(Node::Root),
        "field" => Some(Node::Field),
        "cast" => Some(Node::Cast),
        "add" => Some(Node::Add),
        "eq" => Some(Node::Compare(Comparison::Eq)),
        "ne" => Some(Node::Compare(Comparison::Ne)),
        "lt" => Some(Node::Compare(Comparison::Lt)),
        "le" => Some(Node::Compare(Comparison::Le)),
        "gt" => Some(Node::Compare(Comparison::Gt)),
        "ge" => Some(Node::Compare(Comparison::Ge)),
        "and" => Some(Node::And),
        "or" => Some(Node::Or),
        "not" => Some(Node::Not),
        "isnull" => Some(Node::IsNull),
        "notnull" => Some(Node::NotNull),
        _ => None,
    }
}
