//! What a reader in memory does wrong.
ghost use Rattle.std.specs.Prelude.{◌≡◌, drop};
ghost use Rattle.vx_base.specs.Mischiefs.{is_of_range, mischief_at as kind_at, fails_size as is_size_failing, fails_clone as is_clone_failing};

/// A kind of mischief: a range fails, is cut short, is skipped, is answered after an answer that
/// nobody asked for, or is answered last; or a call of `size` or `try_clone` fails.
#[derive(Clone, Copy, Debug, PartialEq, Eq)]
pub enum MischiefKind {
    Fail,
    Short,
    Skip,
    Unknown,
    Late,
    Size,
    Clone,
}

/// Mischief at a place: that of the range in the log, or of the call among those of its kind.
#[derive(Clone, Copy, Debug, PartialEq, Eq)]
pub struct Mischief {
    pub at: u64,
    pub kind: MischiefKind,
}

// Whether mischief of a kind is done at a range.
fn concerns_range(kind: MischiefKind) -> bool
    ensures { result ≡ is_of_range kind }
{
    !matches!(kind, MischiefKind::Size | MischiefKind::Clone)
}

// Whether the call for the size of a place fails.
pub(crate) fn fails_size(mischief: &[Mischief], place: u64) -> bool
    ensures { result ≡ is_size_failing mischief.now place }
{
    mischief
        .iter()
        .any(|m| m.at == place && matches!(m.kind, MischiefKind::Size))
}

// Whether the call for a clone of a place fails.
pub(crate) fn fails_clone(mischief: &[Mischief], place: u64) -> bool
    ensures { result ≡ is_clone_failing mischief.now place }
{
    mischief
        .iter()
        .any(|m| m.at == place && matches!(m.kind, MischiefKind::Clone))
}

// The mischief at the place of a range.
pub(crate) fn mischief_at(mischief: &[Mischief], place: u64) -> Option<MischiefKind>
    ensures { result ≡ kind_at mischief.now place }
{
    for one in mischief {
        if one.at == place && concerns_range(one.kind) {
            return Some(one.kind);
        }
    }
    None
}
