//! Those of some paths that are at or under no other one.
ghost use Rattle.std.specs.Prelude.{◌≡◌, ◌≤◌, true, false, length};
ghost use Rattle.std.specs.Ordering.{is_lt};
ghost use Rattle.std.specs.List.Sorted.{IsPartitionPoint};
ghost use Rattle.dm_tree.specs.Reach.{AreBelowRoot, AreTopsOf};
ghost use Rattle.dm_tree.specs.Trees.{path_cmp};
ghost use Rattle.dm_repo.specs.Nearby.{AreSortedTops};

use dm_tree::Path;
use std::alloc::Allocator;
use std::cmp::Ordering;

/// Compares the paths by their names, from the root down.
fn compare<A: Allocator, B: Allocator>(left: &Path<A>, right: &Path<B>) -> Ordering
    ensures { result ≡ path_cmp left.now right.now }
{
    let common = left.len().min(right.len());
    for i in 0..common {
        let order = left.part(i).cmp(right.part(i));
        if order.is_ne() {
            return order;
        }
    }
    left.len().cmp(&right.len())
}

/// Those of the paths that are at or under no other one, each once; takes no memory. The last in the order of names comes first:
/// what is taken from the end of a directory moves nothing there.
///
/// In the order of their names, all that is under a path stands right behind it.
pub(crate) fn thin<A: Allocator>(paths: Vec<Path<A>, A>) -> Vec<Path<A>, A>
    ensures tops { AreTopsOf paths.items result.items }
    ensures below { AreBelowRoot result.items }
    ensures sorted { AreSortedTops result.items }
{
    let mut tops = paths;
    tops.sort_unstable_by(compare);
    tops.dedup_by(|path, top| path.is_under(top));
    tops.reverse();
    prove_names(&tops);
    tops
}

/// No path is the root: each has a name.
pub(crate) fn prove_names<A: Allocator>(paths: &[Path<A>])
    ensures { AreBelowRoot paths.now }
{
    for path in paths {
        prove!(path.len() != 0);
    }
}

/// Where a path would stand among sorted tops: behind those that come after it in the order of names.
pub(crate) fn place_among<A: Allocator, B: Allocator>(path: &Path<A>, tops: &[Path<B>]) -> usize
    requires { AreSortedTops tops.now }
    ensures within { result ≤ length tops.now }
    ensures parts { IsPartitionPoint (λ top. is_lt (path_cmp path.now top) ≡ true) (λ top. is_lt (path_cmp path.now top) ≡ false) tops.now result }
{
    tops.partition_point(|top| compare(path, top).is_lt())
}
