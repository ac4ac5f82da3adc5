//! Footers that are kept by the names of their files, so that a file that is known opens without a read.
ghost use Rattle.std.specs.Prelude.{◌≡◌, ◌≤◌, ◌∷◌, [], string_bytes, IfOk, OnOk, OnErr};
ghost use Rattle.std.specs.Map.{lookup, remove_entry};
ghost use Rattle.std.specs.Str.{bytes_eq};
ghost use Rattle.lru.specs.LruCache.{promoted};
ghost use Rattle.vx_file.specs.KeptFooters.{weight, total_weight, fitting, kept_after};
ghost use Rattle.vx_file.specs.declared.footers.TheConstants.{MOST_WEIGHT};

use crate::named_footers::NamedFooters;
use std::alloc::{AllocError, Global};
use std::marker::Model;
use vx_footer::Footer;

/// What the kept footers weigh at most, together.
pub const MOST_WEIGHT: u64 = 102_400;

/// What a footer weighs: its kibibytes, at least one, or ten where its size is not known.
fn weight_of(footer: &Footer) -> u64
    ensures value { result ≡ weight footer.now }
    ensures least { 1 ≤ result }
{
    match footer.approx_byte_size() {
        Some(size) => (size as u64 / 1024).max(1),
        None => 10,
    }
}

/// Takes footers away from the end until the rest weighs little enough; gives what it weighs.
#[tactic(auto, using(crate::proofs::KeptLemmas::fit_whole, crate::proofs::KeptLemmas::thinned, crate::proofs::KeptLemmas::last_weighs))]
fn thin(kept: &mut NamedFooters, total: u64) -> u64
    requires { total ≡ total_weight kept.old }
    ensures left { kept.new ≡ fitting MOST_WEIGHT kept.old }
    ensures weighs { result ≡ total_weight kept.new }
    ensures most { result ≤ MOST_WEIGHT }
{
    let mut left = total;
    while left > MOST_WEIGHT {
        let Some(footer) = kept.remove_last() else {
            unreachable!();
        };
        left -= weight_of(&footer);
    }
    left
}

/// Puts a footer in front, in the place of the one that its name had; gives what all weigh then. Only memory refuses.
#[tactic(auto, using(crate::proofs::KeptLemmas::removed_weighs, crate::proofs::KeptLemmas::nothing_removed))]
fn keep(kept: &mut NamedFooters, total: u64, key: String, footer: Footer) -> Result<u64, AllocError>
    requires weighs { total ≡ total_weight kept.old }
    requires most { total ≤ MOST_WEIGHT }
    requires light { weight footer ≤ MOST_WEIGHT }
    ensures front { OnOk result (kept.new ≡ (string_bytes key, footer) ∷ remove_entry (bytes_eq (string_bytes key)) kept.old) }
    ensures total { IfOk result (λ n. n ≡ total_weight kept.new) }
    ensures err { OnErr result (kept.new ≡ kept.old) }
{
    let more = weight_of(&footer);
    match kept.put(key, footer)? {
        Some(old) => Ok(total - weight_of(&old) + more),
        None => Ok(total + more),
    }
}

/// The footers of files that were opened, by their names. Those that were used least recently go first.
#[derive(Drop)]
pub struct MultiFileSession {
    kept: NamedFooters,
    total: u64,
}

impl Model for MultiFileSession {
    ghost use Rattle.std.specs.Prelude.{◌≡◌, ◌≤◌, List};
    ghost use Rattle.std.specs.Coded.{codes};
    ghost use Rattle.vx_footer.specs.DtypeCode.{dtype_code};
    ghost use Rattle.vx_data.specs.Codes.{tree_code};
    ghost use Rattle.vx_file.specs.KeptFooters.{KeptFooter, total_weight};
    ghost use Rattle.vx_file.specs.declared.footers.TheConstants.{MOST_WEIGHT};

    ghost Value = { List KeptFooter };

    ghost coded = { Prim.hlevel (codes, dtype_code, tree_code) };

    ghost view = { λ s. s.kept };

    ghost invariant = { λ s. (s.total ≡ total_weight s.kept) × (s.total ≤ MOST_WEIGHT) };
}

impl MultiFileSession {
    /// A session that keeps no footer. Only memory refuses.
    pub fn new(alloc: Global) -> Result<MultiFileSession, AllocError>
        ensures { IfOk result (λ s. s ≡ []) }
    {
        Ok(MultiFileSession {
            kept: NamedFooters::new(alloc)?,
            total: 0,
        })
    }

    /// What the kept footers weigh: each its kibibytes, at least one, or ten where its size is not known.
    pub fn weight(&self) -> u64
        ensures value { result ≡ total_weight self.now }
        ensures most { result ≤ MOST_WEIGHT }
    {
        self.total
    }

    /// The footer that is kept by a name, which goes to the front. Only memory refuses.
    #[tactic(auto, using(crate::proofs::KeptLemmas::promoted_weighs))]
    pub fn get_footer(&mut self, alloc: Global, path: &str) -> Result<Option<Footer>, AllocError>
        ensures found { IfOk result (λ found. found ≡ lookup (bytes_eq path.now) self.old) }
        ensures front { OnOk result (self.new ≡ promoted (bytes_eq path.now) self.old) }
        ensures err { OnErr result (self.new ≡ self.old) }
    {
        let found = match self.kept.peek(path) {
            Some(footer) => Some(footer.share(alloc)?),
            None => None,
        };
        self.kept.promote(path);
        Ok(found)
    }

    /// Takes the footer of a name away.
    #[tactic(auto, using(crate::proofs::KeptLemmas::removed_weighs, crate::proofs::KeptLemmas::nothing_removed))]
    fn forget(&mut self, path: &str)
        ensures { self.new ≡ remove_entry (bytes_eq path.now) self.old }
    {
        match self.kept.remove(path) {
            Some(footer) => self.total -= weight_of(&footer),
            None => {}
        }
    }

    /// Keeps a footer by a name, in the place of the one that it had. Those that were used least recently go until all
    /// weigh little enough; one that alone weighs too much is not kept. Only memory refuses.
    pub fn put_footer(
        &mut self,
        alloc: Global,
        path: &str,
        footer: &Footer,
    ) -> Result<(), AllocError>
        ensures ok { OnOk result (self.new ≡ kept_after path.now footer.now self.old) }
        ensures err { OnErr result (self.new ≡ self.old) }
    {
        if weight_of(footer) > MOST_WEIGHT {
            self.forget(path);
            return Ok(());
        }
        let key = String::from_str(alloc, path)?;
        let shared = footer.share(alloc)?;
        let total = keep(&mut self.kept, self.total, key, shared)?;
        self.total = thin(&mut self.kept, total);
        Ok(())
    }
}
