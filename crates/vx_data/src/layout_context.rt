//! The layout ids that a writer may use.
ghost use Rattle.std.specs.Prelude.{◌≡◌, map, string_bytes};
ghost use Rattle.std.specs.Option.{option_map};

use std::marker::Model;

/// The layout ids that a writer may use: all of them where none are given.
#[derive(Debug, Drop)]
pub struct LayoutContext {
    permitted: Option<Vec<String>>,
}

impl Model for LayoutContext {
    ghost use Rattle.std.specs.Prelude.{List, ℕ, Option, map, string_bytes};
    ghost use Rattle.std.specs.Option.{option_map};

    ghost Value = { Option (List (List ℕ)) };

    ghost view = { λ a. option_map (λ ids. map string_bytes ids.items) a.permitted };
}

impl LayoutContext {
    /// These ids, or all of them.
    pub fn new(permitted: Option<Vec<String>>) -> LayoutContext
        ensures { result ≡ option_map (λ ids. map string_bytes ids.items) permitted }
    {
        LayoutContext { permitted }
    }

    /// The ids, where not all of them may be used.
    pub fn permitted(&self) -> Option<&[String]>
        ensures { option_map (λ ids. map string_bytes ids.now) result ≡ self.now }
    {
        match &self.permitted {
            Some(ids) => Some(ids),
            None => None,
        }
    }
}
