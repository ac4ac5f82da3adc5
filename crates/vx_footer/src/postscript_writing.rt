//! Writes the postscript.
ghost use Rattle.std.specs.Prelude.{◌≡◌, ◌≤◌, ◌+◌, ◌++◌, ◌∷◌, [], IfOk, OnOk, Ok, length, map, take, List, ℕ};
ghost use Rattle.vx_base.specs.Checks.{Gives};
ghost use Rattle.vx_tables.specs.Block.{slot_count, table as table_piece};
ghost use Rattle.vx_footer.specs.declared.version.FileVersion.{FileVersion as Version};
ghost use Rattle.vx_footer.specs.declared.postscript.Postscript.{Postscript as Places};
ghost use Rattle.vx_footer.specs.Footers.{entries_size};
ghost use Rattle.vx_footer.specs.Opening.{postscript_checks};
ghost use Rattle.vx_footer.specs.Serialized.{place_pieces};
ghost use Rattle.vx_footer.specs.PostscriptWritten.{locator_pieces, entry_pieces, metadata_pieces, postscript_pieces, postscript_root, key_checks, keys_checks, postscript_written, FailsToWrite, IsSpelled};

use crate::postscript::{has_key, longest_key, most_entries};
use crate::serializing::place_table;
use crate::{FileVersion, Postscript, PostscriptMetadata, PostscriptSegment, WriteError};
use std::alloc::{AllocError, Global};
use vx_base::ByteBuffer;
use vx_tables::{TableError, TableWriter};

/// Adds where a table lies.
fn push_place(
    alloc: Global,
    table: &mut TableWriter,
    slot: usize,
    place: &PostscriptSegment,
) -> Result<(), AllocError>
    requires above { slot_count table.old ≤ slot }
    requires below { slot ≤ 3 }
    ensures { OnOk result (table.new ≡ table.old ++ table_piece slot (place_pieces place.now) ∷ []) }
{
    let inner = place_table(alloc, place)?;
    table.push_table(alloc, slot, inner)?;
    Ok(())
}

/// Adds where a table lies, if it is there.
fn push_locator(
    alloc: Global,
    table: &mut TableWriter,
    slot: usize,
    place: &Option<PostscriptSegment>,
) -> Result<(), AllocError>
    requires above { slot_count table.old ≤ slot }
    requires below { slot ≤ 3 }
    ensures { OnOk result (table.new ≡ table.old ++ locator_pieces slot place.now) }
{
    match place {
        Some(place) => push_place(alloc, table, slot, place),
        None => Ok(()),
    }
}

/// The table of a metadata entry.
#[tactic(auto, unfolding(crate::specs::PostscriptWritten::entry_pieces))]
fn entry_table(alloc: Global, entry: &PostscriptMetadata) -> Result<TableWriter, AllocError>
    ensures { IfOk result (λ t. t ≡ entry_pieces entry.now) }
{
    let mut table = TableWriter::new(alloc);
    table.push_text(alloc, 0, entry.key.as_str())?;
    table.push_table(alloc, 1, place_table(alloc, &entry.segment)?)?;
    Ok(table)
}

/// The tables of metadata entries.
#[tactic(auto, using(crate::proofs::PostscriptSize::next_pieces))]
fn entry_tables(
    alloc: Global,
    entries: &[PostscriptMetadata],
) -> Result<Vec<TableWriter>, AllocError>
    ensures { IfOk result (λ v. v.items ≡ map entry_pieces entries.now) }
{
    let mut tables = Vec::new(alloc);
    for at in 0..entries.len() {
        tables.push(entry_table(alloc, &entries[at])?)?;
    }
    Ok(tables)
}

/// Adds metadata, where there is some.
#[tactic(auto, using(crate::proofs::PostscriptSize::some_metadata))]
fn push_metadata(
    alloc: Global,
    table: &mut TableWriter,
    entries: &[PostscriptMetadata],
) -> Result<(), AllocError>
    requires { slot_count table.old ≤ 4 }
    ensures { OnOk result (table.new ≡ table.old ++ metadata_pieces entries.now) }
{
    if entries.is_empty() {
        return Ok(());
    }
    table.push_tables(alloc, 4, entry_tables(alloc, entries)?)?;
    Ok(())
}

/// The table of a postscript.
#[tactic(auto, using(crate::proofs::PostscriptSize::slots_of))]
fn table_of(alloc: Global, postscript: &Postscript) -> Result<TableWriter, AllocError>
    ensures { IfOk result (λ t. t ≡ postscript_pieces postscript.now) }
{
    let mut table = TableWriter::new(alloc);
    push_locator(alloc, &mut table, 0, &postscript.dtype)?;
    push_place(alloc, &mut table, 1, &postscript.layout)?;
    push_locator(alloc, &mut table, 2, &postscript.statistics)?;
    push_place(alloc, &mut table, 3, &postscript.footer)?;
    push_metadata(alloc, &mut table, postscript.metadata.as_slice())?;
    Ok(table)
}

/// The root of a postscript with few and short keys. It is never too long, so only memory refuses.
#[tactic(auto, using(crate::proofs::PostscriptSize::root_is_short), unfolding(crate::specs::PostscriptWritten::postscript_root))]
pub(crate) fn root_of(alloc: Global, postscript: &Postscript) -> Result<ByteBuffer, AllocError>
    requires few { length postscript.now.metadata ≤ 64 }
    requires small { entries_size postscript.now.metadata ≤ 17408 }
    ensures value { IfOk result (λ b. b.bytes ≡ postscript_root postscript.now) }
    ensures short { IfOk result (λ b. length b.bytes ≤ 20122) }
    ensures unaligned { IfOk result (λ b. b.alignment ≡ 0) }
{
    let table = table_of(alloc, postscript)?;
    match table.finish(alloc) {
        Ok(buffer) => Ok(buffer),
        Err(TableError::OutOfMemory) => Err(AllocError),
        Err(TableError::TableTooLong) => unreachable!(),
    }
}

/// Whether a key may stand behind those of earlier entries.
#[tactic(auto, unfolding(crate::specs::PostscriptWritten::key_checks))]
fn check_key(
    version: FileVersion,
    earlier: &[PostscriptMetadata],
    key: &str,
) -> Result<(), WriteError>
    ensures value { Gives FailsToWrite (λ x. x) result (key_checks version earlier.now key.now) }
    ensures short { OnOk result (length key.now ≤ 256) }
{
    if key.is_empty() {
        return Err(WriteError::EmptyKey);
    }
    if key.len() > longest_key(version) {
        return Err(WriteError::LongKey);
    }
    if has_key(earlier, key) {
        return Err(WriteError::DuplicateKey);
    }
    Ok(())
}

/// The first entries.
fn front(entries: &[PostscriptMetadata], count: usize) -> &[PostscriptMetadata]
    requires { count ≤ length entries.now }
    ensures { result.now ≡ take count entries.now }
{
    &entries[..count]
}

/// Whether the keys of entries may stand one behind the other.
#[tactic(auto, using(crate::proofs::PostscriptSize::key_ends))]
fn check_keys(version: FileVersion, entries: &[PostscriptMetadata]) -> Result<(), WriteError>
    requires { length entries.now ≤ 64 }
    ensures value { Gives FailsToWrite (λ x. x) result (keys_checks version [] entries.now) }
    ensures small { OnOk result (entries_size entries.now ≤ 17408) }
{
    for at in 0..entries.len() {
        check_key(version, front(entries, at), entries[at].key.as_str())?;
    }
    Ok(())
}

impl Postscript {
    /// The bytes of the postscript in a file of this version, at most 65,527. Refuses more metadata than the
    /// version allows, and then the first entry whose key is empty, too long for the version, or that of an
    /// earlier entry.
    #[tactic(auto, unfolding(crate::specs::PostscriptWritten::postscript_written))]
    pub fn write(&self, alloc: Global, version: FileVersion) -> Result<ByteBuffer, WriteError>
        ensures value { Gives FailsToWrite (λ b. b.bytes) result (postscript_written version self.now) }
        ensures short { IfOk result (λ b. length b.bytes ≤ 65527) }
    {
        if self.metadata.len() > most_entries(version) {
            return Err(WriteError::TooManyMetadata);
        }
        check_keys(version, self.metadata.as_slice())?;
        Ok(root_of(alloc, self)?)
    }
}

/// A postscript that was written is read again.
#[tactic(auto, using(crate::proofs::PostscriptBack::written_back))]
pub fn written_postscript_is_read()
    ensures { (version : Version) (p : Places) (bytes : List ℕ) → IsSpelled p → postscript_written version p ≡ Ok bytes
        → postscript_checks version bytes ≡ Ok p }
{}
