//! The type of the rows of a file, as words spell it.
ghost use Rattle.std.specs.Prelude.{◌≡◌, None, map, string_bytes, IfOk};
ghost use Rattle.std.specs.Option.{option_map};
ghost use Rattle.vx_data.specs.Dtype.{dtype_view};
ghost use Rattle.vx_data.specs.TextsRead.{dtype_of_text};
ghost use Rattle.vx_commands.specs.Command.{optional_dtype, typed_hints, Parses};

use crate::failure::Failure;
use std::alloc::{AllocError, Global};
use std::marker::Model;
use vx_data::{DType, TextError, VortexSession};
use vx_file::ServeOptions;

/// The type of the rows, where it is given.
#[derive(Drop)]
pub struct RowType {
    dtype: Option<DType>,
}

impl Model for RowType {
    ghost use Rattle.std.specs.Coded.{codes};
    ghost use Rattle.std.specs.Prelude.{Option};
    ghost use Rattle.std.specs.Option.{option_map};
    ghost use Rattle.vx_data.specs.Dtype.{Dtype, dtype_view};
    ghost use Rattle.vx_footer.specs.DtypeCode.{dtype_code};

    ghost Value = { Option Dtype };

    ghost coded = { Prim.hlevel (codes, dtype_code) };

    ghost view = { λ t. option_map dtype_view t.dtype };
}

impl RowType {
    /// No type.
    pub(crate) fn unknown() -> RowType
        ensures { result ≡ None }
    {
        RowType { dtype: None }
    }

    /// The type that a word spells.
    #[tactic(auto, using(crate::proofs::RowTypes::spelled, crate::proofs::RowTypes::not_spelled))]
    pub(crate) fn spelled<'a>(alloc: Global, word: &str) -> Result<RowType, Failure<'a>>
        ensures { Parses (option_map (λ d. Some d) (dtype_of_text word.now)) result }
    {
        match DType::from_text(alloc, word) {
            Ok(dtype) => Ok(RowType { dtype: Some(dtype) }),
            Err(TextError::BadText) => Err(Failure::Usage),
            Err(TextError::OutOfMemory) => Err(Failure::OutOfMemory),
        }
    }

    /// The type that the values of an option spell, where it is given.
    pub(crate) fn parse<'a>(
        alloc: Global,
        values: Option<&[String]>,
    ) -> Result<RowType, Failure<'a>>
        ensures { Parses (optional_dtype (option_map (λ v. map string_bytes v.now) values.entry)) result }
    {
        match values {
            None => Ok(RowType::unknown()),
            Some([word]) => RowType::spelled(alloc, word.as_str()),
            Some(_) => Err(Failure::Usage),
        }
    }

    /// The type, shared.
    pub(crate) fn share(&self, alloc: Global) -> Result<Option<DType>, AllocError>
        ensures { IfOk result (λ dtype. option_map dtype_view dtype ≡ self.now) }
    {
        match &self.dtype {
            Some(dtype) => Ok(Some(dtype.share(alloc)?)),
            None => Ok(None),
        }
    }

    /// How a file is opened of which nothing but the type is known.
    pub(crate) fn options(&self, alloc: Global) -> Result<ServeOptions, AllocError>
        ensures { IfOk result (λ options. options ≡ typed_hints self.now) }
    {
        let options = ServeOptions::new(VortexSession::new(alloc)?);
        Ok(options.with_some_dtype(self.share(alloc)?))
    }
}
