//! What the Vortex container stands on: small types, byte buffers, and the traits by which it reads
//! and writes the outside, with implementations over memory and over real files.
#![tactic(auto)]

mod alignment;
mod answer;
mod buffer;
mod fault;
mod file_reader;
mod matching;
mod mem_answers;
mod mem_cache;
mod mem_opener;
mod mem_reader;
mod mem_stream;
mod mischief;
mod opener;
mod reader;
mod segment;
mod segment_cache;
mod sequence;
mod std_stream;
mod stream;
mod text;
mod windowed;
mod writing;

pub use alignment::{Alignment, BadAlignment};
pub use answer::{Asked, RangeAnswer, ReadAtRequest};
pub use buffer::ByteBuffer;
pub use fault::{CloneError, Failed, FaultKind, OpenerError, SinkError};
pub use file_reader::{FileOpener, FileReader};
pub use matching::{are_whole, count_faulted, log_answers, take_answer};
pub use mem_cache::MemCache;
pub use mem_opener::MemOpener;
pub use mem_reader::MemReader;
pub use mem_stream::{MemSink, MemSource};
pub use mischief::{Mischief, MischiefKind};
pub use opener::Opener;
pub use reader::Reader;
pub use segment::{SegmentId, SegmentSpec};
pub use segment_cache::{CacheError, NoCache, SegmentCache};
pub use sequence::Sequence;
pub use std_stream::{StdSink, StdSource};
pub use stream::{Sink, Source};
pub use text::Text;
pub use windowed::WithWindow;
pub use writing::{write_all, write_flushed, write_pieces};
