//! Tables of one root, read field by field and written.
#![tactic(auto)]

mod bad_table;
mod blocks;
mod elements;
mod elements_block;
mod piece;
mod read_back;
mod table_error;
mod table_list;
mod table_reader;
mod table_writer;
mod vector_reader;
mod visits;
mod walk_error;
mod wire;

pub use bad_table::BadTable;
pub use elements::Elements;
pub use read_back::{written_is_read_back, written_root_is_found};
pub use table_error::TableError;
pub use table_list::TableList;
pub use table_reader::TableReader;
pub use table_writer::TableWriter;
pub use vector_reader::VectorReader;
pub use visits::Visits;
pub use walk_error::WalkError;
