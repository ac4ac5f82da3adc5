//! The law on reading: a file of rows that was written opens again, and has the rows that were pushed.
ghost use Rattle.std.specs.Prelude.{◌≡◌, List, Ok};
ghost use Rattle.vx_data.specs.Dtype.{Dtype};
ghost use Rattle.vx_data.specs.DtypeWritten.{HasTexts};
ghost use Rattle.vx_footer.specs.ReadAgain.{content_read};
ghost use Rattle.vx_footer.specs.Serializing.{Parts};
ghost use Rattle.vx_rows.specs.Rows.{Rows};
ghost use Rattle.vx_write.specs.OpensAgain.{AreTold, Accepted, OpensAgain};
ghost use Rattle.vx_write.specs.Options.{Options};
ghost use Rattle.vx_write.specs.Written.{end_checks};

/// A file of chunks, none of which was refused, and neither was its end, opens to the footer that was written, where the
/// type of the rows is supplied or was written. Its layout has the rows of the chunks, in their order.
pub fn written_rows_are_read()
    ensures { (o : Options) (d : Dtype) (past : List Rows) (parts : Parts) → AreTold o → HasTexts d → Accepted o d past → end_checks o d past ≡ Ok parts →
        OpensAgain o d past (content_read parts.content) }
{}
