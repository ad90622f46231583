//! Examples of callers, some of which are shown in READMEs of crates, as are some of other modules.
ghost use Rattle.std.specs.Prelude.{◌≡◌, IfOk, IfSome};
ghost use Rattle.std.specs.Cmp.Lexicographic.{slice_cmp};
ghost use Rattle.std.specs.FinMap.{remove};
ghost use Rattle.std.specs.Ordering.{nat_cmp};
ghost use Rattle.camp_base.specs.Trees.{Files};
ghost use Rattle.camp_prim.specs.Effect.{Applies, Leads};
ghost use Rattle.camp_share.specs.Maps.{map_of};

use camp_base::{Apply, Line, Path, Tree};
use camp_ctx::{Contexted, CtxSet, conflict};
use camp_notation::{NotationError, list_text, read_list};
use camp_prim::{Named, applied_is_applies, commute, inverse_leads_back};
use camp_seq::{Seq, apply_all, clean_merge, norm};
use camp_share::{Share, Shared, SharedList, SharedMap};
use std::alloc::{AllocError, Global};

/// Inserts a path into a shared map, and removes it again: the result is the map without the path;
/// `camp_share`.
pub fn put_and_remove(
    map: &SharedMap<Path, Shared<SharedList<Line>>>,
    path: &Path,
    lines: SharedList<Line>,
) -> Result<SharedMap<Path, Shared<SharedList<Line>>>, AllocError>
    ensures exact { IfOk result (λ left.
        map_of (slice_cmp nat_cmp) left ≡ remove (map_of (slice_cmp nat_cmp) map.now) path.now) }
{
    let one = map.inserted(path.share()?, Shared::new(map.allocator(), lines)?)?;
    one.without(path)
}

/// Makes a tree with one file of one line; `camp_base`.
pub fn one_line(alloc: Global, path: &Path, line: &Line) -> Result<Tree, Apply> {
    let mut tree = Tree::empty(alloc);
    tree.add_file(path)?;
    let lines = [line.try_clone()?];
    tree.splice(path, 1, &[], &lines)?;
    Ok(tree)
}

/// Undoes `p` in a tree that `p` and then `q` made, and keeps what `q` did, unless it depends on `p`; `camp_prim`.
pub fn take_out(tree: &mut Tree, p: &Named, q: &Named) -> Result<Option<Named>, Apply>
    ensures left { IfOk result (λ found. IfSome found (λ alone. (old : Files) →
        Leads p.now.prim q.now.prim old tree.old → Applies alone.prim old tree.new)) }
{
    applied_is_applies();
    inverse_leads_back();
    let Some((alone, last)) = commute(p, q)? else {
        return Ok(None);
    };
    last.invert().apply(tree)?;
    Ok(Some(alone))
}

/// Merges `theirs` into a tree that `ours` made of the same tree; `camp_seq`.
pub fn pull(tree: &mut Tree, ours: &Seq, theirs: &Seq) -> Result<bool, Apply> {
    let Some((after_ours, _)) = clean_merge(ours, theirs)? else {
        return Ok(false);
    };
    apply_all(&after_ours, tree)?;
    Ok(true)
}

/// Returns whether `p` conflicts with `q` once it is moved in front of the list; `camp_ctx`.
pub fn conflicts_in_front(
    alloc: Global,
    list: &Seq,
    x: &Contexted,
    other: &Contexted,
) -> Result<bool, AllocError> {
    if let Some(passed) = Contexted::past(list, x)? {
        return conflict(&passed, other);
    }
    let seen = Contexted::add(list, x)?;
    Ok(is_one(alloc, x, &seen)? && conflict(&seen, other)?)
}

/// Returns whether two contexted patches are the same member of a set.
fn is_one(alloc: Global, x: &Contexted, seen: &Contexted) -> Result<bool, AllocError> {
    let set = CtxSet::empty(alloc).insert(x)?.insert(seen)?;
    Ok(set.len() == 1)
}

/// Parses a list and renders its normal order; `camp_notation`.
pub fn ordered_text(alloc: Global, text: &[u8]) -> Result<String, NotationError> {
    let list = read_list(alloc, &[], text)?;
    Ok(list_text(alloc, &[], &norm(&list)?)?)
}
