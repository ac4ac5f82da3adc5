//! The order of paths: by the bytes of their names, from the outermost on.
ghost use Rattle.std.specs.Prelude.{◌≡◌};

use crate::FieldPath;
use std::cmp::Ordering;

impl PartialEq for FieldPath {
    ghost use Rattle.vx_data.specs.Paths.{same_path, path_per};

    ghost eq = { same_path };

    ghost laws = { path_per };

    #[tactic(auto, using(crate::proofs::PathOrder::same_names))]
    fn eq(&self, other: &FieldPath) -> bool {
        self.parts() == other.parts()
    }
}

impl Eq for FieldPath {
    ghost use Rattle.vx_data.specs.Paths.{path_equivalence};

    ghost laws = { path_equivalence };
}

impl PartialOrd for FieldPath {
    ghost use Rattle.std.specs.Prelude.{Some};
    ghost use Rattle.vx_data.specs.Paths.{path_cmp, path_order};

    ghost partial_cmp = { λ p q. Some (path_cmp p q) };

    ghost laws = { path_order };

    fn partial_cmp(&self, other: &FieldPath) -> Option<Ordering> {
        Some(self.cmp(other))
    }
}

impl Ord for FieldPath {
    ghost use Rattle.std.specs.Prelude.{refl};
    ghost use Rattle.vx_data.specs.Paths.{path_cmp, path_total, path_ties};

    ghost cmp = { path_cmp };

    ghost total = { path_total };

    ghost matches_partial_cmp = { λ p q. refl };

    ghost matches_eq = { path_ties };

    #[tactic(auto, using(crate::proofs::PathOrder::names_order))]
    fn cmp(&self, other: &FieldPath) -> Ordering {
        self.parts().cmp(other.parts())
    }
}
