//! How a file is opened.
ghost use Rattle.std.specs.Prelude.{◌≡◌, IfOk, None, Some, false};
ghost use Rattle.std.specs.Option.{option_map};
ghost use Rattle.vx_data.specs.Dtype.{dtype_view};
ghost use Rattle.vx_footer.specs.Footers.{FooterValue};
ghost use Rattle.vx_file.specs.Hints.{first_length as first_length_of};
ghost use Rattle.vx_file.specs.Plans.{greatest_end as greatest_end_of};

use std::alloc::{AllocError, Global};
use std::marker::Model;
use vx_data::{DType, VortexSession};
use vx_footer::Footer;

/// The fewest bytes that the first read asks for, where the file is not shorter.
pub const LEAST_READ: u64 = 65535;

/// How a file is opened, and what is known of it before.
#[derive(Drop)]
pub struct ServeOptions {
    session: VortexSession,
    initial_read_size: usize,
    file_size: Option<u64>,
    dtype: Option<DType>,
    footer: Option<Footer>,
    include_metadata: bool,
}

impl Model for ServeOptions {
    ghost use Rattle.std.specs.Coded.{codes};
    ghost use Rattle.std.specs.Option.{option_map};
    ghost use Rattle.vx_data.specs.Dtype.{dtype_view};
    ghost use Rattle.vx_data.specs.Codes.{tree_code};
    ghost use Rattle.vx_footer.specs.DtypeCode.{dtype_code};
    ghost use Rattle.vx_footer.specs.Footers.{FooterValue};
    ghost use Rattle.vx_file.specs.Hints.{Hints};

    ghost Value = { Hints };

    ghost coded = { Prim.hlevel (codes, dtype_code, tree_code) };

    ghost view = { λ o. record {
      size = o.file_size;
      initial = o.initial_read_size;
      dtype = option_map dtype_view o.dtype;
      footer = option_map (λ (f : FooterValue). f.content) o.footer;
      metadata = o.include_metadata;
    } };
}

impl ServeOptions {
    /// A file of which nothing is known.
    pub fn new(session: VortexSession) -> ServeOptions
        ensures { result ≡ record { size = None; initial = 0; dtype = None; footer = None; metadata = false } }
    {
        ServeOptions {
            session,
            initial_read_size: 0,
            file_size: None,
            dtype: None,
            footer: None,
            include_metadata: false,
        }
    }

    /// The same with a first read of so many bytes. It never asks for fewer than 65,535, nor for more than
    /// the file has.
    pub fn with_initial_read_size(self, initial_read_size: usize) -> ServeOptions
        ensures { result ≡ record self { initial = initial_read_size } }
    {
        let mut changed = self;
        changed.initial_read_size = initial_read_size;
        changed
    }

    /// The same with the size of the file, or without one. A reader is not asked for a size that is here.
    pub fn with_some_file_size(self, file_size: Option<u64>) -> ServeOptions
        ensures { result ≡ record self { size = file_size } }
    {
        let mut changed = self;
        changed.file_size = file_size;
        changed
    }

    /// The same with the type of the rows, or without one. It is used in place of the file's own.
    pub fn with_some_dtype(self, dtype: Option<DType>) -> ServeOptions
        ensures { result ≡ record self { dtype = option_map dtype_view dtype } }
    {
        let mut changed = self;
        changed.dtype = dtype;
        changed
    }

    /// The same with the footer of the file, or without one. With a footer nothing of the file is read before its
    /// segments are, and a type of the rows that is here is not looked at.
    pub fn with_some_footer(self, footer: Option<Footer>) -> ServeOptions
        ensures { result ≡ record self { footer = option_map (λ (f : FooterValue). f.content) footer } }
    {
        let mut changed = self;
        changed.footer = footer;
        changed
    }

    /// The same with the values of the metadata, or without them. They are loaded before a script is answered.
    pub fn with_include_metadata(self, include_metadata: bool) -> ServeOptions
        ensures { result ≡ record self { metadata = include_metadata } }
    {
        let mut changed = self;
        changed.include_metadata = include_metadata;
        changed
    }

    /// Whether the values of the metadata are to be loaded.
    pub(crate) fn includes_metadata(&self) -> bool
        ensures { result ≡ self.now.metadata }
    {
        self.include_metadata
    }

    /// The size of the file, where it is known.
    pub fn file_size(&self) -> Option<u64>
        ensures { result ≡ self.now.size }
    {
        self.file_size
    }

    /// How many bytes the first read asks for, or the whole file where it is shorter.
    pub(crate) fn first_length(&self) -> u64
        ensures { result ≡ first_length_of self.now }
    {
        (self.initial_read_size as u64).max(LEAST_READ)
    }

    pub(crate) fn session(&self, alloc: Global) -> Result<VortexSession, AllocError> {
        self.session.share(alloc)
    }

    /// The type of the rows, where it is known.
    pub(crate) fn share_dtype(&self, alloc: Global) -> Result<Option<DType>, AllocError>
        ensures { IfOk result (λ dtype. option_map dtype_view dtype ≡ self.now.dtype) }
    {
        match &self.dtype {
            Some(dtype) => Ok(Some(dtype.share(alloc)?)),
            None => Ok(None),
        }
    }

    /// The footer of the file, where it is known.
    pub(crate) fn share_footer(&self, alloc: Global) -> Result<Option<Footer>, AllocError>
        ensures { IfOk result (λ footer. option_map (λ (f : FooterValue). f.content) footer ≡ self.now.footer) }
    {
        match &self.footer {
            Some(footer) => Ok(Some(footer.share(alloc)?)),
            None => Ok(None),
        }
    }

    /// The greatest end that a segment may have: the size of the file, where it is known, or else the last offset.
    pub(crate) fn greatest_end(&self) -> u64
        ensures { result ≡ greatest_end_of self.now.size }
    {
        self.file_size.unwrap_or(u64::MAX)
    }
}
