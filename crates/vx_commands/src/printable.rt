//! What was served, with the text of its type.
ghost use Rattle.std.specs.Prelude.{◌≡◌, IfOk};
ghost use Rattle.vx_data.specs.Layout.{dtype_of};
ghost use Rattle.vx_data.specs.Texts.{dtype_text};

use std::alloc::{AllocError, Global};
use std::marker::Model;
use vx_file::Served;

/// What was served, ready to be printed: memory is taken for no line of it any more.
#[derive(Drop)]
pub struct Printable {
    served: Served,
    dtype: String,
}

impl Model for Printable {
    ghost use Rattle.std.specs.Coded.{codes};
    ghost use Rattle.std.specs.Prelude.{◌≡◌, string_bytes};
    ghost use Rattle.vx_data.specs.Codes.{tree_code};
    ghost use Rattle.vx_footer.specs.DtypeCode.{dtype_code};
    ghost use Rattle.vx_data.specs.Layout.{dtype_of};
    ghost use Rattle.vx_data.specs.Texts.{dtype_text};
    ghost use Rattle.vx_file.specs.declared.served.Served.{Served};

    ghost Value = { Served };

    ghost coded = { Prim.hlevel (codes, dtype_code, tree_code) };

    ghost view = { λ p. p.served };

    ghost invariant = { λ p. string_bytes p.dtype ≡ dtype_text (dtype_of p.served.footer.content.layout) };
}

impl Printable {
    pub(crate) fn new(alloc: Global, served: Served) -> Result<Printable, AllocError>
        ensures { IfOk result (λ p. p ≡ served) }
    {
        let dtype = served.footer.dtype().to_text(alloc)?;
        Ok(Printable { served, dtype })
    }

    pub(crate) fn served(&self) -> &Served
        ensures { result.now ≡ self.now }
    {
        &self.served
    }

    /// The text of the type of the rows.
    pub(crate) fn dtype(&self) -> &str
        ensures { result.now ≡ dtype_text (dtype_of self.now.footer.content.layout) }
    {
        self.dtype.as_str()
    }
}
