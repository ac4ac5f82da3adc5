//! Laws of the sizes of fields.
ghost use Rattle.std.specs.Prelude.{◌≡◌, ◌+◌, ◌++◌, ◌∷◌, List, [], sum_by};
ghost use Rattle.vx_base.specs.declared.segment.SegmentSpec.{SegmentSpec};
ghost use Rattle.vx_data.specs.Layout.{LayoutTree};
ghost use Rattle.vx_data.specs.Paths.{Path};
ghost use Rattle.vx_footer.specs.FieldSizes.{size_of, named_length, own_length, names_below, paths_of};

/// The size of the whole is the sum of the lengths of the segments that layouts name, each once.
#[tactic(auto, using(crate::proofs::TotalLemmas::whole_is_named))]
pub fn total_counts_each_segment_once()
    ensures { (t : LayoutTree) (ss : List SegmentSpec) → size_of t ss [] ≡ named_length t ss }
{}

/// The size of a field is the sum of the sizes of the fields right below, and of the lengths of the segments
/// whose longest common path it is.
#[tactic(auto, using(crate::proofs::ChildLemmas::size_is_of_fields))]
pub fn size_is_that_of_fields_below()
    ensures { (t : LayoutTree) (ss : List SegmentSpec) (path : Path) → size_of t ss path
        ≡ own_length t ss path + sum_by (λ n. size_of t ss (path ++ n ∷ [])) (names_below path (paths_of [] t)) }
{}
