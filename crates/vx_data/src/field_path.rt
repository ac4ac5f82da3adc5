//! The place of a field in a type.
ghost use Rattle.std.specs.Prelude.{◌≡◌, ◌-◌, nat_lt, length, map, take, string_bytes};

use std::marker::Model;

/// The names of the fields that lead to one, from the outermost on.
#[derive(Debug, Drop)]
pub struct FieldPath {
    parts: Vec<String>,
}

impl Model for FieldPath {
    ghost use Rattle.std.specs.Prelude.{List, ℕ, map, string_bytes};

    ghost Value = { List (List ℕ) };

    ghost view = { λ a. map string_bytes a.parts.items };
}

impl FieldPath {
    /// The path of these names.
    pub fn new(parts: Vec<String>) -> FieldPath
        ensures { result ≡ map string_bytes parts.items }
    {
        FieldPath { parts }
    }

    /// The names, from the outermost on.
    pub fn parts(&self) -> &[String]
        ensures { map string_bytes result.now ≡ self.now }
    {
        &self.parts
    }

    /// Takes the last name away, if there is one.
    #[tactic(auto, using(crate::proofs::PathOrder::pop_steps))]
    pub fn pop(&mut self) -> bool
        ensures value { result ≡ nat_lt 0 (length self.old) }
        ensures rest { self.new ≡ take (length self.old - 1) self.old }
    {
        self.parts.pop().is_some()
    }
}
