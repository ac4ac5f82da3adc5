//! Rows, with the text of their type.
ghost use Rattle.std.specs.Prelude.{◌≡◌, IfOk};
ghost use Rattle.vx_data.specs.Texts.{dtype_text};
ghost use Rattle.vx_rows.specs.Rows.{column_view, dtype_of};

use std::alloc::{AllocError, Global};
use std::marker::Model;
use vx_rows::Column;

/// Rows, ready to be printed: memory is taken for no line of them any more.
#[derive(Drop)]
pub struct PrintableRows {
    rows: Column,
    dtype: String,
}

impl Model for PrintableRows {
    ghost use Rattle.std.specs.Coded.{codes};
    ghost use Rattle.std.specs.Prelude.{◌≡◌, string_bytes};
    ghost use Rattle.vx_data.specs.Texts.{dtype_text};
    ghost use Rattle.vx_footer.specs.DtypeCode.{dtype_code};
    ghost use Rattle.vx_rows.specs.Rows.{Rows, column_view, dtype_of};
    ghost use Rattle.vx_rows.specs.RowsCode.{rows_code};

    ghost Value = { Rows };

    ghost coded = { Prim.hlevel (codes, dtype_code, rows_code) };

    ghost view = { λ p. column_view p.rows };

    ghost invariant = { λ p. string_bytes p.dtype ≡ dtype_text (dtype_of (column_view p.rows)) };
}

impl PrintableRows {
    pub fn new(alloc: Global, rows: Column) -> Result<PrintableRows, AllocError>
        ensures { IfOk result (λ p. p ≡ column_view rows) }
    {
        let dtype = rows.dtype(alloc)?.to_text(alloc)?;
        Ok(PrintableRows { rows, dtype })
    }

    /// The rows.
    pub fn rows(&self) -> &Column
        ensures { column_view result.now ≡ self.now }
    {
        &self.rows
    }

    /// The text of their type.
    pub fn dtype(&self) -> &str
        ensures { result.now ≡ dtype_text (dtype_of self.now) }
    {
        self.dtype.as_str()
    }
}
