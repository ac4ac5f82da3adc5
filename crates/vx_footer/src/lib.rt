//! Reads the footer of a file from its tail, and writes it.
#![tactic(auto)]

mod deserializer;
mod error;
mod field_sizes;
mod footer;
mod footer_table;
mod gathered;
mod marker;
mod metadata_values;
mod path_table;
mod placing;
mod postscript;
mod postscript_table;
mod postscript_writing;
mod read_back;
mod rows;
mod serialize_error;
mod serializer;
mod serializer_tables;
mod serializing;
mod sharing;
mod size_laws;
mod sizes;
mod sizes_error;
mod statistics;
mod tables;
mod version;
mod visits;
mod write_error;

pub use deserializer::{DeserializeStep, FooterDeserializer};
pub use error::{OpenError, PastEnd, Which};
pub use field_sizes::FieldSizes;
pub use footer::Footer;
pub use placing::padding;
pub use postscript::{Postscript, PostscriptMetadata, PostscriptSegment};
pub use postscript_writing::written_postscript_is_read;
pub use read_back::{bytes_are_asked_once, serialized_footer_is_read, written_footer_is_read};
pub use serialize_error::SerializeError;
pub use serializer::{FooterSerializer, Serialized};
pub use sharing::may_be_shared;
pub use size_laws::{size_is_that_of_fields_below, total_counts_each_segment_once};
pub use sizes::CompressedFieldSizes;
pub use sizes_error::SizesError;
pub use statistics::FileStatistics;
pub use version::{
    EOF_SIZE, FileVersion, LATEST_VERSION, MAGIC_BYTES, MAX_POSTSCRIPT_SIZE, V1_FOOTER_FBS_SIZE,
    VERSION, VORTEX_FILE_EXTENSION,
};
pub use write_error::WriteError;
