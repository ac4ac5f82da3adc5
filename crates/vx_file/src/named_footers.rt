//! Footers by name, in the order of their last use.
ghost use Rattle.std.specs.Prelude.{◌≡◌, ◌<◌, ◌-◌, ◌^◌, ◌∷◌, [], length, take, IfOk, OnOk, OnErr};
ghost use Rattle.std.specs.Map.{lookup, remove_entry};
ghost use Rattle.std.specs.Str.{bytes_eq};
ghost use Rattle.lru.specs.LruCache.{promoted, last_entry};
ghost use Rattle.std.specs.Option.{option_map};

use lru::LruCache;
use std::alloc::{AllocError, Global};
use std::marker::Model;
use vx_footer::Footer;

/// Footers by name, the one that was used last first.
#[derive(Drop)]
pub(crate) struct NamedFooters {
    kept: LruCache<String, Footer>,
}

impl Model for NamedFooters {
    ghost use Rattle.std.specs.Prelude.{◌≡◌, ◌-◌, ◌^◌, List, map, string_bytes};
    ghost use Rattle.std.specs.Coded.{codes};
    ghost use Rattle.vx_footer.specs.DtypeCode.{dtype_code};
    ghost use Rattle.vx_data.specs.Codes.{tree_code};
    ghost use Rattle.vx_file.specs.KeptFooters.{KeptFooter};

    ghost Value = { List KeptFooter };

    ghost coded = { Prim.hlevel (codes, dtype_code, tree_code) };

    ghost view = { λ s. map (λ e. (string_bytes e.0, e.1)) s.kept.entries };

    ghost invariant = { λ s. s.kept.cap ≡ 2 ^ 64 - 1 };
}

impl NamedFooters {
    /// No footers. Only memory refuses.
    pub(crate) fn new(alloc: Global) -> Result<NamedFooters, AllocError>
        ensures { IfOk result (λ s. s ≡ []) }
    {
        Ok(NamedFooters {
            kept: LruCache::unbounded(alloc)?,
        })
    }

    /// The footer of a name.
    pub(crate) fn peek(&self, path: &str) -> Option<&Footer>
        ensures { option_map (λ footer. footer.now) result ≡ lookup (bytes_eq path.now) self.now }
    {
        self.kept.peek(path)
    }

    /// Brings the footer of a name to the front.
    pub(crate) fn promote(&mut self, path: &str)
        ensures { self.new ≡ promoted (bytes_eq path.now) self.old }
    {
        self.kept.promote(path);
    }

    /// Takes the footer of a name away.
    pub(crate) fn remove(&mut self, path: &str) -> Option<Footer>
        ensures value { result ≡ lookup (bytes_eq path.now) self.old }
        ensures left { self.new ≡ remove_entry (bytes_eq path.now) self.old }
    {
        self.kept.pop(path)
    }

    /// Takes the footer away that was used least recently.
    pub(crate) fn remove_last(&mut self) -> Option<Footer>
        ensures value { result ≡ option_map (λ e. e.1) (last_entry self.old) }
        ensures left { self.new ≡ take (length self.old - 1) self.old }
    {
        match self.kept.pop_lru() {
            Some((_, footer)) => Some(footer),
            None => None,
        }
    }

    /// Puts a footer in front, in the place of the one that its name had. Only memory refuses.
    pub(crate) fn put(&mut self, path: String, footer: Footer) -> Result<Option<Footer>, AllocError>
        ensures value { IfOk result (λ old. old ≡ lookup (bytes_eq path.bytes.items) self.old) }
        ensures front { OnOk result (self.new ≡ (path.bytes.items, footer) ∷ remove_entry (bytes_eq path.bytes.items) self.old) }
        ensures err { OnErr result (self.new ≡ self.old) }
    {
        let few = self.kept.len();
        prove!(few < 1 << 63);
        match self.kept.put(path, footer) {
            Ok(old) => Ok(old),
            Err(_) => Err(AllocError),
        }
    }
}
