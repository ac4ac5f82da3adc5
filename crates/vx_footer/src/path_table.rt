//! The paths of a tree's layouts, by number.
ghost use Rattle.std.specs.Prelude.{◌≡◌, ◌++◌, ◌∷◌, ◌<◌, ◌≤◌, ◌||◌, [], true, Some, OnOk, OnErr, IfOk, IfSome, length, map, take, string_bytes};
ghost use Rattle.vx_data.specs.Paths.{Path};
ghost use Rattle.vx_footer.specs.CommonPaths.{common_length as shared_length, narrowed};
ghost use Rattle.vx_footer.specs.Gathering.{path_at, has_path};

use std::alloc::{AllocError, Global};
use std::marker::Model;
use vx_data::FieldPath;

/// A path, and the number of the path with one name less.
#[derive(Drop)]
struct Place {
    path: FieldPath,
    parent: u32,
}

/// The paths that a walk met, by number. That of no names is number 0.
#[derive(Drop)]
pub(crate) struct PathTable {
    places: Vec<Place>,
    last: u32,
}

impl Model for PathTable {
    ghost use Rattle.std.specs.Prelude.{List, ℕ, map};
    ghost use Rattle.vx_footer.specs.PathTables.{HasParents};

    ghost Value = { List (List (List ℕ)) };

    ghost view = { λ t. map (λ p. p.path) t.places.items };

    ghost invariant = { λ t. HasParents t.places.items };
}

/// How many first names two paths share.
#[tactic(auto, using(crate::proofs::CommonSteps::length_steps))]
fn common_length(left: &[String], right: &[String]) -> usize
    ensures value { result ≡ shared_length (map string_bytes left.now) (map string_bytes right.now) }
    ensures inside { result ≤ length left.now }
{
    let most = left.len().min(right.len());
    for at in 0..most {
        if left[at].as_str() != right[at].as_str() {
            return at;
        }
    }
    most
}

/// Whether a path goes on from another one by this name.
fn goes_on(path: &FieldPath, parent: &FieldPath, name: &str) -> bool
    ensures { result ≡ true → path.now ≡ parent.now ++ name.now ∷ [] }
{
    let names = path.parts();
    let front = parent.parts();
    let count = front.len();
    if names.len() <= count || names.len() - count != 1 {
        return false;
    }
    if names[count].as_str() != name {
        return false;
    }
    common_length(names, front) == count
}

/// The path of a field of this name.
fn child_of(alloc: Global, parent: &FieldPath, name: &str) -> Result<FieldPath, AllocError>
    ensures { IfOk result (λ path. path ≡ parent.now ++ name.now ∷ []) }
{
    let mut parts = parts_of(alloc, parent.parts())?;
    parts.push(String::from_str(alloc, name)?)?;
    Ok(FieldPath::new(parts))
}

/// A copy of the names.
fn parts_of(alloc: Global, names: &[String]) -> Result<Vec<String>, AllocError>
    ensures { IfOk result (λ parts. map string_bytes parts.items ≡ map string_bytes names.now) }
{
    let mut parts = Vec::new(alloc);
    for name in names {
        parts.push(name.clone()?)?;
    }
    Ok(parts)
}

/// A copy of a path.
pub(crate) fn copy_of(alloc: Global, path: &FieldPath) -> Result<FieldPath, AllocError>
    ensures { IfOk result (λ copy. copy ≡ path.now) }
{
    Ok(FieldPath::new(parts_of(alloc, path.parts())?))
}

impl PathTable {
    /// The table of the path of no names.
    pub fn new(alloc: Global) -> Result<PathTable, AllocError>
        ensures { IfOk result (λ table. table ≡ [] ∷ []) }
    {
        let root = FieldPath::new(Vec::new(alloc));
        let mut places = Vec::new(alloc);
        places.push(Place {
            path: root,
            parent: 0,
        })?;
        Ok(PathTable { places, last: 0 })
    }

    /// How many paths there are.
    pub fn len(&self) -> usize
        ensures { result ≡ length self.now }
    {
        self.places.len()
    }

    /// The path of a number.
    pub fn path(&self, number: usize) -> &FieldPath
        requires { number < length self.now }
        ensures { result.now ≡ path_at self.now number }
    {
        &self.places[number].path
    }

    /// Goes to a path: those that come next are looked for behind it.
    pub fn meet(&mut self, number: u32)
        ensures { self.new ≡ self.old }
    {
        self.last = number;
    }

    /// The number behind the last path that was met, where its path is the one of this name below the parent.
    fn next_child(&self, parent: u32, name: &str) -> Option<u32>
        requires { parent < length self.now }
        ensures { IfSome result (λ number. (number < length self.now) × (path_at self.now number ≡ path_at self.now parent ++ name.now ∷ [])) }
    {
        let next = self.last.checked_add(1)?;
        let at = next as usize;
        if at < self.len() && goes_on(self.path(at), self.path(parent as usize), name) {
            return Some(next);
        }
        None
    }

    /// Adds the path of this name below a path.
    fn add(&mut self, alloc: Global, parent: u32, name: &str) -> Result<u32, AllocError>
        requires { parent < length self.old }
        ensures number { IfOk result (λ number. number ≡ length self.old) }
        ensures paths { OnOk result (self.new ≡ self.old ++ (path_at self.old parent ++ name.now ∷ []) ∷ []) }
        ensures err { OnErr result (self.new ≡ self.old) }
    {
        let Ok(number) = u32::try_from(self.places.len()) else {
            return Err(AllocError);
        };
        let path = child_of(alloc, self.path(parent as usize), name)?;
        self.places.push(Place { path, parent })?;
        Ok(number)
    }

    /// The number of the path of this name below a path, which is added where it is not found.
    pub fn child(&mut self, alloc: Global, parent: u32, name: &str) -> Result<u32, AllocError>
        requires { parent < length self.old }
        ensures kept { take (length self.old) self.new ≡ self.old }
        ensures number { IfOk result (λ number. (number < length self.new) × (path_at self.new number ≡ path_at self.old parent ++ name.now ∷ [])) }
        ensures also { OnOk result ((q : Path) → has_path self.new q ≡ (has_path self.old q || has_path ((path_at self.old parent ++ name.now ∷ []) ∷ []) q)) }
    {
        match self.next_child(parent, name) {
            Some(number) => Ok(number),
            None => self.add(alloc, parent, name),
        }
    }

    /// The number of the path of the first names of one.
    fn front(&self, from: u32, count: usize) -> u32
        requires inside { from < length self.now }
        requires short { count ≤ length (path_at self.now from) }
        ensures inside { result < length self.now }
        ensures path { path_at self.now result ≡ take count (path_at self.now from) }
    {
        let mut number = from;
        while self.path(number as usize).parts().len() > count {
            number = self.places[number as usize].parent;
        }
        number
    }

    /// The number of the path of the first names that two paths share.
    #[tactic(auto, using(crate::proofs::PathTableSteps::common_itself))]
    pub fn common(&self, left: u32, right: u32) -> u32
        requires left { left < length self.now }
        requires right { right < length self.now }
        ensures inside { result < length self.now }
        ensures path { path_at self.now result ≡ narrowed (Some (path_at self.now left)) (path_at self.now right) }
    {
        if left == right {
            return left;
        }
        let other = self.path(right as usize).parts();
        let count = common_length(self.path(left as usize).parts(), other);
        self.front(left, count)
    }
}
