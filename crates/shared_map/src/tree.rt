ghost use Rattle.std.specs.Prelude.{◌≡◌, ◌+◌, IfOk, [], ◌∷◌, ◌++◌, IsTrue, length, slice_get};
ghost use Rattle.std.specs.FinMap.{put, find};
ghost use Rattle.std.specs.Ordering.{nat_cmp};
ghost use Rattle.std.specs.Cmp.Lexicographic.{slice_cmp};
ghost use Rattle.std.specs.Arc.{arc_value};
ghost use Rattle.std.specs.Option.{option_copied};
ghost use Rattle.shared_map.specs.Tree.{pair, pair_behind, byte_of, IsSplit};
ghost use Rattle.shared_map.specs.Entries.{Entries, sorted, least_above, without};

use std::alloc::{AllocError, Global};
use std::cmp::Ordering;
use std::marker::Model;
use std::sync::Arc;

/// A key and its value.
#[derive(Drop)]
pub(crate) struct Entry<V> {
    pub(crate) key: Vec<u8>,
    pub(crate) value: V,
}

/// A search tree whose nodes never change. Contracts see its entries in order, and its height.
#[cycle(tree)]
#[derive(Drop)]
pub(crate) struct Tree<V> {
    root: Link<V>,
}

#[cycle(tree)]
#[derive(Drop)]
enum Link<V> {
    Leaf,
    Fork(Arc<Branch<V>>),
}

#[cycle(tree)]
#[derive(Drop)]
struct Branch<V> {
    left: Tree<V>,
    entry: Arc<Entry<V>>,
    right: Tree<V>,
    height: u8,
    size: usize,
}

impl<V> Model for Tree<V> {
    ghost use Rattle.std.specs.Prelude.{length};
    ghost use Rattle.shared_map.specs.Shape.{Shape};

    ghost Value = { Shape V };

    ghost use Rattle.shared_map.specs.Tree.{shape, IsTree};

    ghost view = { λ t. shape t.root };

    ghost invariant = { λ t. IsTree t.root };

    ghost size = { λ s. length s.entries };

    ghost use Rattle.shared_map.specs.proved.TreeFalls.{depth_le-length-listed};

    ghost size_decreases = { λ t h. depth_le-length-listed t.root };
}

impl<V: Drop> Tree<V> {
    /// No entries.
    pub(crate) fn new() -> Tree<V>
        ensures { result ≡ record { entries = []; height = 0 } }
    {
        Tree { root: Link::Leaf }
    }

    /// The number of branches on the longest path from the root: 255 if it is more.
    pub(crate) fn height(&self) -> u8
        ensures { result ≡ byte_of self.now.height }
    {
        match &self.root {
            Link::Leaf => 0,
            Link::Fork(b) => b.height,
        }
    }

    /// The number of entries.
    pub(crate) fn len(&self) -> usize
        ensures { result ≡ length self.now.entries }
    {
        match &self.root {
            Link::Leaf => 0,
            Link::Fork(b) => b.size,
        }
    }

    /// The entry at a place in the order, from 0 on.
    pub(crate) fn nth(&self, n: usize) -> Option<&Entry<V>>
        ensures { pair_behind result ≡ slice_get self.now.entries n }
    {
        match &self.root {
            Link::Leaf => None,
            Link::Fork(fork) => {
                let b: &Branch<V> = fork;
                let before = b.left.len();
                if n < before {
                    b.left.nth(n)
                } else if n > before {
                    b.right.nth(n - before - 1)
                } else {
                    let entry: &Entry<V> = &b.entry;
                    Some(entry)
                }
            }
        }
    }

    /// An equal tree. It shares all nodes.
    pub(crate) fn copy(&self) -> Result<Tree<V>, AllocError>
        ensures { IfOk result (λ t. t ≡ self.now) }
    {
        match &self.root {
            Link::Leaf => Ok(Tree { root: Link::Leaf }),
            Link::Fork(b) => Ok(Tree {
                root: Link::Fork(Arc::try_clone(b)?),
            }),
        }
    }

    /// The value of a key.
    pub(crate) fn get(&self, key: &[u8]) -> Option<&V>
        ensures { option_copied result ≡ find (slice_cmp nat_cmp) key.now self.now.entries }
    {
        match &self.root {
            Link::Leaf => None,
            Link::Fork(fork) => {
                let b: &Branch<V> = fork;
                let entry: &Entry<V> = &b.entry;
                match key.cmp(entry.key.as_slice()) {
                    Ordering::Less => b.left.get(key),
                    Ordering::Equal => Some(&entry.value),
                    Ordering::Greater => b.right.get(key),
                }
            }
        }
    }

    /// The least key above one.
    pub(crate) fn above(&self, key: &[u8]) -> Option<&[u8]>
        ensures { option_copied result ≡ least_above key.now self.now.entries }
    {
        match &self.root {
            Link::Leaf => None,
            Link::Fork(fork) => {
                let b: &Branch<V> = fork;
                let entry: &Entry<V> = &b.entry;
                match key.cmp(entry.key.as_slice()) {
                    Ordering::Less => match b.left.above(key) {
                        Some(found) => Some(found),
                        None => Some(entry.key.as_slice()),
                    },
                    _ => b.right.above(key),
                }
            }
        }
    }

    /// The tree with a value at a key. It keeps a copy of the key.
    pub(crate) fn set_at(&self, alloc: Global, key: &[u8], value: V) -> Result<Tree<V>, AllocError>
        ensures { IfOk result (λ t. t.entries ≡ put (slice_cmp nat_cmp) key.now value self.now.entries) }
    {
        let key = Vec::from_slice(alloc, key)?;
        self.set(alloc, Arc::new(alloc, Entry { key, value })?)
    }

    /// The tree with an entry. At an error nothing was made.
    fn set(&self, alloc: Global, new: Arc<Entry<V>>) -> Result<Tree<V>, AllocError>
        ensures { IfOk result (λ t. t.entries ≡
            put (slice_cmp nat_cmp) (pair (arc_value new)).0 (pair (arc_value new)).1 self.now.entries) }
    {
        match &self.root {
            Link::Leaf => joined(alloc, Tree::new(), new, Tree::new()),
            Link::Fork(fork) => {
                let b: &Branch<V> = fork;
                let entry: &Entry<V> = &b.entry;
                match new.key.as_slice().cmp(entry.key.as_slice()) {
                    Ordering::Less => with_left(alloc, b.left.set(alloc, new)?, b),
                    // The sides keep their heights, so there is nothing to balance.
                    Ordering::Equal => joined(alloc, b.left.copy()?, new, b.right.copy()?),
                    Ordering::Greater => with_right(alloc, b, b.right.set(alloc, new)?),
                }
            }
        }
    }

    /// The tree without its least entry, and that entry.
    fn split_first(&self, alloc: Global) -> Result<Option<(Arc<Entry<V>>, Tree<V>)>, AllocError>
        ensures { IfOk result (IsSplit self.now.entries) }
    {
        match &self.root {
            Link::Leaf => Ok(None),
            Link::Fork(fork) => {
                let b: &Branch<V> = fork;
                match b.left.split_first(alloc)? {
                    None => Ok(Some((Arc::try_clone(&b.entry)?, b.right.copy()?))),
                    Some((first, left)) => Ok(Some((first, with_left(alloc, left, b)?))),
                }
            }
        }
    }

    /// The tree without a key.
    pub(crate) fn remove(&self, alloc: Global, key: &[u8]) -> Result<Tree<V>, AllocError>
        ensures { IfOk result (λ t. t.entries ≡ without key.now self.now.entries) }
    {
        match &self.root {
            Link::Leaf => Ok(Tree::new()),
            Link::Fork(fork) => {
                let b: &Branch<V> = fork;
                let entry: &Entry<V> = &b.entry;
                match key.cmp(entry.key.as_slice()) {
                    Ordering::Less => with_left(alloc, b.left.remove(alloc, key)?, b),
                    Ordering::Equal => without_entry(alloc, b),
                    Ordering::Greater => with_right(alloc, b, b.right.remove(alloc, key)?),
                }
            }
        }
    }
}

/// The tree of a branch.
fn joined<V: Drop>(
    alloc: Global,
    left: Tree<V>,
    entry: Arc<Entry<V>>,
    right: Tree<V>,
) -> Result<Tree<V>, AllocError>
    requires { IsTrue (sorted (left.entries ++ pair (arc_value entry) ∷ right.entries)) }
    ensures { IfOk result (λ t. t.entries ≡ left.entries ++ pair (arc_value entry) ∷ right.entries) }
{
    // It saturates at 255, as the definition does: no clause bounds the height of a tree.
    let height = left.height().max(right.height()).saturating_add(1);
    let size = size_over(left.len(), right.len())?;
    let branch = Arc::new(
        alloc,
        Branch {
            left,
            entry,
            right,
            height,
            size,
        },
    )?;
    Ok(Tree {
        root: Link::Fork(branch),
    })
}

/// The number of entries of a branch, by those of its sides.
fn size_over(left: usize, right: usize) -> Result<usize, AllocError>
    ensures { IfOk result (λ n. n ≡ left + right + 1) }
{
    // An overflow is refused as memory is, the one refusal that these calls have.
    match left.checked_add(right) {
        Some(sum) if sum < usize::MAX => Ok(sum + 1),
        _ => Err(AllocError),
    }
}

/// The tree of a branch with another left side.
fn with_left<V: Drop>(alloc: Global, left: Tree<V>, b: &Branch<V>) -> Result<Tree<V>, AllocError>
    requires { IsTrue (sorted (left.entries ++ pair (arc_value b.now.entry) ∷ b.now.right.entries)) }
    ensures { IfOk result (λ t. t.entries ≡ left.entries ++ pair (arc_value b.now.entry) ∷ b.now.right.entries) }
{
    balanced(alloc, left, Arc::try_clone(&b.entry)?, b.right.copy()?)
}

/// The tree of a branch with another right side.
fn with_right<V: Drop>(alloc: Global, b: &Branch<V>, right: Tree<V>) -> Result<Tree<V>, AllocError>
    requires { IsTrue (sorted (b.now.left.entries ++ pair (arc_value b.now.entry) ∷ right.entries)) }
    ensures { IfOk result (λ t. t.entries ≡ b.now.left.entries ++ pair (arc_value b.now.entry) ∷ right.entries) }
{
    balanced(alloc, b.left.copy()?, Arc::try_clone(&b.entry)?, right)
}

/// The tree of a branch without its entry.
fn without_entry<V: Drop>(alloc: Global, b: &Branch<V>) -> Result<Tree<V>, AllocError>
    requires { IsTrue (sorted (b.now.left.entries ++ b.now.right.entries)) }
    ensures { IfOk result (λ t. t.entries ≡ b.now.left.entries ++ b.now.right.entries) }
{
    match b.right.split_first(alloc)? {
        None => b.left.copy(),
        Some((first, right)) => balanced(alloc, b.left.copy()?, first, right),
    }
}

/// The tree of a branch, rotated if one side is at least two higher than the other.
fn balanced<V: Drop>(
    alloc: Global,
    left: Tree<V>,
    entry: Arc<Entry<V>>,
    right: Tree<V>,
) -> Result<Tree<V>, AllocError>
    requires { IsTrue (sorted (left.entries ++ pair (arc_value entry) ∷ right.entries)) }
    ensures { IfOk result (λ t. t.entries ≡ left.entries ++ pair (arc_value entry) ∷ right.entries) }
{
    let (high_left, high_right) = (left.height(), right.height());
    if high_left > high_right.saturating_add(1) {
        lean_left(alloc, &left, entry, right)
    } else if high_right > high_left.saturating_add(1) {
        lean_right(alloc, left, entry, &right)
    } else {
        joined(alloc, left, entry, right)
    }
}

/// The tree that `balanced` makes if the left side is at least two higher.
fn lean_left<V: Drop>(
    alloc: Global,
    left: &Tree<V>,
    entry: Arc<Entry<V>>,
    right: Tree<V>,
) -> Result<Tree<V>, AllocError>
    requires { IsTrue (sorted (left.now.entries ++ pair (arc_value entry) ∷ right.entries)) }
    ensures { IfOk result (λ t. t.entries ≡ left.now.entries ++ pair (arc_value entry) ∷ right.entries) }
{
    match &left.root {
        // No leaf is higher than another tree; the contract doesn't speak of heights, so the case
        // stays.
        Link::Leaf => joined(alloc, Tree::new(), entry, right),
        Link::Fork(fork) => {
            let outer: &Branch<V> = fork;
            // If the inner side is the higher one, a single rotation would leave the tree as
            // uneven.
            if outer.left.height() < outer.right.height()
                && let Link::Fork(inner) = &outer.right.root
            {
                return twice_left(alloc, outer, inner, entry, right);
            }
            once_left(alloc, outer, entry, right)
        }
    }
}

/// A single rotation: the left branch becomes the root.
fn once_left<V: Drop>(
    alloc: Global,
    outer: &Branch<V>,
    entry: Arc<Entry<V>>,
    right: Tree<V>,
) -> Result<Tree<V>, AllocError>
    requires { IsTrue (sorted ((outer.now.left.entries ++ pair (arc_value outer.now.entry) ∷ outer.now.right.entries) ++
        pair (arc_value entry) ∷ right.entries)) }
    ensures { IfOk result (λ t. t.entries ≡ (outer.now.left.entries ++
        pair (arc_value outer.now.entry) ∷ outer.now.right.entries) ++ pair (arc_value entry) ∷ right.entries) }
{
    let high = joined(alloc, outer.right.copy()?, entry, right)?;
    joined(
        alloc,
        outer.left.copy()?,
        Arc::try_clone(&outer.entry)?,
        high,
    )
}

/// A double rotation: the right branch of the left one becomes the root.
fn twice_left<V: Drop>(
    alloc: Global,
    outer: &Branch<V>,
    inner: &Branch<V>,
    entry: Arc<Entry<V>>,
    right: Tree<V>,
) -> Result<Tree<V>, AllocError>
    requires { IsTrue
        (sorted ((outer.now.left.entries ++ pair (arc_value outer.now.entry) ∷ (inner.now.left.entries ++
        pair (arc_value inner.now.entry) ∷ inner.now.right.entries)) ++ pair (arc_value entry) ∷ right.entries)) }
    ensures { IfOk result
        (λ t. t.entries ≡ (outer.now.left.entries ++ pair (arc_value outer.now.entry) ∷ (inner.now.left.entries ++
        pair (arc_value inner.now.entry) ∷ inner.now.right.entries)) ++ pair (arc_value entry) ∷ right.entries) }
{
    let high = joined(alloc, inner.right.copy()?, entry, right)?;
    let low = joined(
        alloc,
        outer.left.copy()?,
        Arc::try_clone(&outer.entry)?,
        inner.left.copy()?,
    )?;
    joined(alloc, low, Arc::try_clone(&inner.entry)?, high)
}

/// The tree that `balanced` makes if the right side is at least two higher.
fn lean_right<V: Drop>(
    alloc: Global,
    left: Tree<V>,
    entry: Arc<Entry<V>>,
    right: &Tree<V>,
) -> Result<Tree<V>, AllocError>
    requires { IsTrue (sorted (left.entries ++ pair (arc_value entry) ∷ right.now.entries)) }
    ensures { IfOk result (λ t. t.entries ≡ left.entries ++ pair (arc_value entry) ∷ right.now.entries) }
{
    match &right.root {
        // As in `lean_left`: no leaf is higher than another tree.
        Link::Leaf => joined(alloc, left, entry, Tree::new()),
        Link::Fork(fork) => {
            let outer: &Branch<V> = fork;
            // If the inner side is the higher one, a single rotation would leave the tree as
            // uneven.
            if outer.right.height() < outer.left.height()
                && let Link::Fork(inner) = &outer.left.root
            {
                return twice_right(alloc, left, entry, inner, outer);
            }
            once_right(alloc, left, entry, outer)
        }
    }
}

/// A single rotation: the right branch becomes the root.
fn once_right<V: Drop>(
    alloc: Global,
    left: Tree<V>,
    entry: Arc<Entry<V>>,
    outer: &Branch<V>,
) -> Result<Tree<V>, AllocError>
    requires { IsTrue (sorted (left.entries ++ pair (arc_value entry) ∷
        (outer.now.left.entries ++ pair (arc_value outer.now.entry) ∷ outer.now.right.entries))) }
    ensures { IfOk result (λ t. t.entries ≡ left.entries ++ pair (arc_value entry) ∷
        (outer.now.left.entries ++ pair (arc_value outer.now.entry) ∷ outer.now.right.entries)) }
{
    let low = joined(alloc, left, entry, outer.left.copy()?)?;
    joined(
        alloc,
        low,
        Arc::try_clone(&outer.entry)?,
        outer.right.copy()?,
    )
}

/// A double rotation: the left branch of the right one becomes the root.
fn twice_right<V: Drop>(
    alloc: Global,
    left: Tree<V>,
    entry: Arc<Entry<V>>,
    inner: &Branch<V>,
    outer: &Branch<V>,
) -> Result<Tree<V>, AllocError>
    requires { IsTrue (sorted (left.entries ++
        pair (arc_value entry) ∷ ((inner.now.left.entries ++ pair (arc_value inner.now.entry) ∷ inner.now.right.entries)
        ++ pair (arc_value outer.now.entry) ∷ outer.now.right.entries))) }
    ensures { IfOk result (λ t. t.entries ≡ left.entries ++
        pair (arc_value entry) ∷ ((inner.now.left.entries ++ pair (arc_value inner.now.entry) ∷ inner.now.right.entries)
        ++ pair (arc_value outer.now.entry) ∷ outer.now.right.entries)) }
{
    let low = joined(alloc, left, entry, inner.left.copy()?)?;
    let high = joined(
        alloc,
        inner.right.copy()?,
        Arc::try_clone(&outer.entry)?,
        outer.right.copy()?,
    )?;
    joined(alloc, low, Arc::try_clone(&inner.entry)?, high)
}
