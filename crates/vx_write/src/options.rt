//! What a file is to be written with.
ghost use Rattle.std.specs.Prelude.{◌≡◌, ◌++◌, ◌∷◌, [], not, nat_le, ◌==◌, true, false, Err, if◌then◌else◌};
ghost use Rattle.std.specs.Prelude.{IfOk, IfSome, IfNone, OnOk, OnErr, ◌<◌, length, map, slice_set, string_bytes};
ghost use Rattle.std.specs.List.{list_all, filter, AllByRecursion};
ghost use Rattle.vx_base.specs.Buffer.{Buffer};
ghost use Rattle.vx_base.specs.Checks.{Gives};
ghost use Rattle.vx_data.specs.LayoutWritten.{has_id as is_among};
ghost use Rattle.vx_data.specs.Session.{known_arrays};
ghost use Rattle.vx_footer.specs.Opening.{most_entries as most_of, longest_key as longest_of};
ghost use Rattle.vx_footer.specs.PostscriptWritten.{FailsToWrite};
ghost use Rattle.vx_footer.specs.ReadAgain.{IsValue};
ghost use Rattle.vx_footer.specs.Serializing.{values_view, are_distinct};
ghost use Rattle.vx_write.specs.OpensAgain.{AreTold};
ghost use Rattle.vx_write.specs.Written.{coding_of};
ghost use Rattle.vx_write.specs.Options.{default_options, with_value, with_values, values_checks, keys_of, layout_ids as layouts_of};

use crate::buffered_bytes::BufferedBytesTracker;
use crate::sending::ChunkCoding;
use crate::{LayoutStrategy, WriteStrategyBuilder};
use std::alloc::{AllocError, Global};
use std::marker::Model;
use vx_base::ByteBuffer;
use vx_data::{ComponentKind, LayoutContext, Stat, VortexSession};
use vx_footer::{FileVersion, WriteError};

/// The ids of arrays that are known, in order of bytes.
const KNOWN_ARRAYS: [&str; 4] = [
    "vortex.bool",
    "vortex.primitive",
    "vortex.struct",
    "vortex.varbin",
];

/// What a file is to be written with: a session, a strategy, statistics and metadata.
#[derive(Drop)]
pub struct VortexWriteOptions {
    session: VortexSession,
    strategy: LayoutStrategy,
    enforces: bool,
    excludes_dtype: bool,
    statistics: Vec<Stat>,
    values: Vec<(String, ByteBuffer)>,
    version: FileVersion,
    buffered: BufferedBytesTracker,
}

impl Model for VortexWriteOptions {
    ghost use Rattle.std.specs.Prelude.{◌≡◌, true};
    ghost use Rattle.vx_footer.specs.Serializing.{values_view, are_distinct};
    ghost use Rattle.vx_write.specs.Options.{Options, keys_of};

    ghost Value = { Options };

    ghost view = { λ o. record {
      session = o.session;
      strategy = o.strategy;
      enforces = o.enforces;
      excludes_dtype = o.excludes_dtype;
      statistics = o.statistics.items;
      metadata = values_view o.values.items;
      version = o.version;
    } };

    // No two keys are equal.
    ghost invariant = { λ o. are_distinct (keys_of (values_view o.values.items)) ≡ true };
}

/// How many metadata entries a file of this version may have.
fn most_entries(version: FileVersion) -> usize
    ensures { result ≡ most_of version }
{
    match version {
        FileVersion::V1 => 16,
        FileVersion::V2 => 64,
    }
}

/// How many bytes a key may have in a file of this version.
fn longest_key(version: FileVersion) -> usize
    ensures { result ≡ longest_of version }
{
    match version {
        FileVersion::V1 => 64,
        FileVersion::V2 => 256,
    }
}

/// Whether no key is empty.
fn have_keys(values: &[(String, ByteBuffer)]) -> bool
    ensures { result ≡ list_all (λ k. not (length k == 0)) (keys_of (values_view values.now)) }
{
    for value in values {
        if value.0.as_str().is_empty() {
            return false;
        }
    }
    true
}

/// Whether each key has at most so many bytes.
fn have_short_keys(values: &[(String, ByteBuffer)], most: usize) -> bool
    ensures { result ≡ list_all (λ k. nat_le (length k) most) (keys_of (values_view values.now)) }
{
    for value in values {
        if value.0.as_str().len() > most {
            return false;
        }
    }
    true
}

/// Whether a file of this version may have these values.
#[tactic(auto, unfolding(crate::specs::Options::values_checks))]
fn check_values(version: FileVersion, values: &[(String, ByteBuffer)]) -> Result<(), WriteError>
    ensures value { Gives FailsToWrite (λ _. tt) result (values_checks version (keys_of (values_view values.now))) }
    ensures memory { result ≡ Err WriteError.OutOfMemory → ⊥ }
{
    if values.len() > most_entries(version) {
        return Err(WriteError::TooManyMetadata);
    }
    if !have_keys(values) {
        return Err(WriteError::EmptyKey);
    }
    if !have_short_keys(values, longest_key(version)) {
        return Err(WriteError::LongKey);
    }
    Ok(())
}

/// The place of the value with a key, where there is one.
#[tactic(auto, using(crate::proofs::OptionsLemmas::next_value, crate::proofs::OptionsLemmas::put_here, crate::proofs::OptionsLemmas::put_behind))]
fn place_of(values: &[(String, ByteBuffer)], key: &str) -> Option<usize>
    ensures inside { IfSome result (λ at. at < length values.now) }
    ensures some { IfSome result (λ at. (b : Buffer) → slice_set (values_view values.now) at (key.now, b) ≡ with_value (values_view values.now) (key.now, b)) }
    ensures none { IfNone result ((b : Buffer) → values_view values.now ++ (key.now, b) ∷ [] ≡ with_value (values_view values.now) (key.now, b)) }
{
    for at in 0..values.len() {
        if values[at].0.as_str() == key {
            return Some(at);
        }
    }
    None
}

/// Puts a value in place of the one with its key, or behind the others.
#[tactic(auto, using(crate::proofs::OptionsLemmas::view_set, crate::proofs::OptionsLemmas::view_push))]
fn put(
    values: &mut Vec<(String, ByteBuffer)>,
    value: (String, ByteBuffer),
) -> Result<(), AllocError>
    ensures ok { OnOk result (values_view values.new.items ≡ with_value (values_view values.old.items) (string_bytes value.0, value.1)) }
    ensures err { OnErr result (values_view values.new.items ≡ values_view values.old.items) }
{
    match place_of(values, value.0.as_str()) {
        Some(at) => {
            values[at] = value;
            Ok(())
        }
        None => {
            values.push(value)?;
            Ok(())
        }
    }
}

/// What is so of all values: keys are texts, and alignments are at most 2^16.
fn are_values(values: &[(String, ByteBuffer)])
    ensures { AllByRecursion IsValue (values_view values.now) }
{
    for at in 0..values.len() {
        let value = &values[at];
        let _ = value.1.alignment().exponent();
    }
}

/// Puts values, each in place of the one with its key or behind the others.
fn put_all(
    values: &mut Vec<(String, ByteBuffer)>,
    more: Vec<(String, ByteBuffer)>,
) -> Result<(), AllocError>
    ensures { OnOk result (values_view values.new.items ≡ with_values (values_view values.old.items) (values_view more.items)) }
{
    for value in more {
        put(values, value)?;
    }
    Ok(())
}

/// Whether an id is among others.
pub(crate) fn has_id(ids: &[String], id: &str) -> bool
    ensures { result ≡ is_among (map string_bytes ids.now) id.now }
{
    for other in ids {
        if other.as_str() == id {
            return true;
        }
    }
    false
}

/// Adds an id.
fn push_id(alloc: Global, ids: &mut Vec<String>, id: &str) -> Result<(), AllocError>
    ensures { OnOk result (map string_bytes ids.new.items ≡ map string_bytes ids.old.items ++ id.now ∷ []) }
{
    ids.push(String::from_str(alloc, id)?)?;
    Ok(())
}

/// The ids of arrays that are known and among these, or all that are known.
fn known_ids(alloc: Global, enforces: bool, enabled: &[String]) -> Result<Vec<String>, AllocError>
    ensures { IfOk result
        (λ ids. map string_bytes ids.items ≡
        (if enforces then filter (is_among (map string_bytes enabled.now)) known_arrays else known_arrays)) }
{
    let mut ids = Vec::new(alloc);
    for id in &KNOWN_ARRAYS {
        if !enforces || has_id(enabled, id) {
            push_id(alloc, &mut ids, id)?;
        }
    }
    Ok(ids)
}

/// Copies of ids.
fn copied(alloc: Global, ids: &[String]) -> Result<Vec<String>, AllocError>
    ensures { IfOk result (λ copies. map string_bytes copies.items ≡ map string_bytes ids.now) }
{
    let mut copies = Vec::new(alloc);
    for id in ids {
        push_id(alloc, &mut copies, id.as_str())?;
    }
    Ok(copies)
}

impl VortexWriteOptions {
    /// The default strategy, with all statistics and no metadata, in a file of the first version. Only ids that
    /// the session has enabled may be written.
    pub fn new(alloc: Global, session: VortexSession) -> Result<VortexWriteOptions, AllocError>
        ensures { IfOk result (λ options. options ≡ default_options session) }
    {
        let strategy = WriteStrategyBuilder::from_session(alloc, &session)?.build();
        let statistics = vec![in alloc; Stat::Min, Stat::Max, Stat::NullCount]?;
        Ok(VortexWriteOptions {
            session,
            strategy,
            enforces: true,
            excludes_dtype: false,
            statistics,
            values: Vec::new(alloc),
            version: FileVersion::V1,
            buffered: BufferedBytesTracker::new(alloc)?,
        })
    }

    /// How columns are laid out.
    pub fn with_strategy(self, strategy: LayoutStrategy) -> VortexWriteOptions
        ensures { result ≡ record self { strategy = strategy } }
    {
        let mut options = self;
        options.strategy = strategy;
        options
    }

    /// Ids that are not enabled may be written too.
    pub fn disable_editions(self) -> VortexWriteOptions
        ensures { result ≡ record self { enforces = false } }
    {
        let mut options = self;
        options.enforces = false;
        options
    }

    /// The type of the rows is not written.
    pub fn exclude_dtype(self) -> VortexWriteOptions
        ensures { result ≡ record self { excludes_dtype = true } }
    {
        let mut options = self;
        options.excludes_dtype = true;
        options
    }

    /// The statistics that are written.
    pub fn with_file_statistics(self, file_statistics: Vec<Stat>) -> VortexWriteOptions
        ensures { result ≡ record self { statistics = file_statistics.items } }
    {
        let mut options = self;
        options.statistics = file_statistics;
        options
    }

    /// The version of the file.
    pub fn with_version(self, version: FileVersion) -> VortexWriteOptions
        ensures { result ≡ record self { version = version } }
    {
        let mut options = self;
        options.version = version;
        options
    }

    /// A metadata value, in place of the one with its key.
    #[tactic(auto, using(crate::proofs::OptionsLemmas::still_distinct))]
    pub fn with_metadata_segment(
        self,
        alloc: Global,
        key: String,
        metadata: ByteBuffer,
    ) -> Result<VortexWriteOptions, AllocError>
        ensures { IfOk result (λ options. options ≡ record self { metadata = with_value self.metadata (string_bytes key, metadata) }) }
    {
        let _ = alloc;
        let mut options = self;
        put(&mut options.values, (key, metadata))?;
        Ok(options)
    }

    /// Metadata values, each in place of the one with its key.
    #[tactic(auto, using(crate::proofs::OptionsLemmas::still_all_distinct))]
    pub fn with_metadata_segments(
        self,
        alloc: Global,
        metadata: Vec<(String, ByteBuffer)>,
    ) -> Result<VortexWriteOptions, AllocError>
        ensures { IfOk result (λ options. options ≡ record self { metadata = with_values self.metadata (values_view metadata.items) }) }
    {
        let _ = alloc;
        let mut options = self;
        put_all(&mut options.values, metadata)?;
        Ok(options)
    }

    /// Whether the metadata may be written: few values for the file's version, and no key that is empty or too
    /// long.
    pub fn validate_metadata(&self) -> Result<(), WriteError>
        ensures value { Gives FailsToWrite (λ _. tt) result (values_checks self.now.version (keys_of self.now.metadata)) }
        ensures memory { result ≡ Err WriteError.OutOfMemory → ⊥ }
    {
        check_values(self.version, &self.values)
    }

    /// How many bytes the rows take that the writer of these options holds back, as it notes it. Only memory refuses.
    pub fn buffered_bytes_tracker(&self) -> Result<BufferedBytesTracker, AllocError> {
        self.buffered.share()
    }

    /// Notes how many bytes are held back.
    pub(crate) fn note_buffered(&self, count: u64) {
        self.buffered.set(count);
    }

    /// How columns are laid out.
    pub(crate) fn strategy(&self) -> &LayoutStrategy
        ensures { result.now ≡ self.now.strategy }
    {
        &self.strategy
    }

    /// The statistics that are written.
    pub(crate) fn statistics(&self) -> &[Stat]
        ensures { result.now ≡ self.now.statistics }
    {
        &self.statistics
    }

    /// Whether the type of the rows is not written.
    pub(crate) fn is_dtype_excluded(&self) -> bool
        ensures { result ≡ self.now.excludes_dtype }
    {
        self.excludes_dtype
    }

    /// How chunks are encoded: by the ids of arrays that the file may use, at the strategy's alignment.
    pub(crate) fn coding(&self, alloc: Global) -> Result<ChunkCoding, AllocError>
        ensures { IfOk result (λ coding. coding ≡ coding_of self.now) }
    {
        let enabled = self.session.enabled(ComponentKind::Array);
        let ids = known_ids(alloc, self.enforces, enabled)?;
        Ok(ChunkCoding::new(ids, self.strategy.flat().alignment))
    }

    /// The ids of layouts that the file may use.
    pub(crate) fn layouts(&self, alloc: Global) -> Result<LayoutContext, AllocError>
        ensures { IfOk result (λ context. context ≡ layouts_of self.now) }
    {
        if !self.enforces {
            return Ok(LayoutContext::new(None));
        }
        let ids = copied(alloc, self.session.enabled(ComponentKind::Layout))?;
        Ok(LayoutContext::new(Some(ids)))
    }

    /// The metadata values, of which no two have the same key.
    pub(crate) fn into_values(self) -> Vec<(String, ByteBuffer)>
        ensures value { values_view result.items ≡ self.metadata }
        ensures distinct { are_distinct (keys_of self.metadata) ≡ true }
    {
        self.values
    }

    /// What is so of all options.
    pub(crate) fn are_told(&self)
        ensures { AreTold self.now }
    {
        let strategy = &self.strategy;
        let _ = strategy.default();
        let _ = strategy.rules();
        let _ = strategy.flat().alignment.exponent();
        are_values(&self.values);
    }

    /// The version of the file.
    pub(crate) fn version(&self) -> FileVersion
        ensures { result ≡ self.now.version }
    {
        self.version
    }
}
