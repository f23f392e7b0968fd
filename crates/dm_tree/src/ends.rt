//! The places where the lines of a text end, as plain numbers.
ghost use Rattle.std.specs.Prelude.{◌≡◌, ◌+◌, ◌-◌, ◌^◌, ◌<◌, ◌≤◌, ◌++◌, length, take, drop, map, vec_len, vec_capacity};
ghost use Rattle.std.specs.List.{All};

use crate::gap::open;
use std::alloc::Allocator;

/// Puts the fresh ends, counted from `from`, in place of those from `start` to before `end`, and
/// moves those behind from behind `to` to behind the last of the fresh; there is room.
pub(crate) fn replace_ends<A: Allocator>(
    ends: &mut Vec<usize, A>,
    start: usize,
    end: usize,
    fresh: &[usize],
    from: usize,
    to: usize,
    added: usize,
)
    requires order { start ≤ end }
    requires within { end ≤ length ends.old.items }
    requires room { vec_len ends.old + length fresh.now ≤ vec_capacity ends.old + (end - start) }
    requires behind { All (λ e. (to ≤ e) × (e - to + (from + added) < 2 ^ 64)) (drop end ends.old.items) }
    requires fresh_fit { All (λ e. from + e < 2 ^ 64) fresh.now }
    requires added_fits { from + added < 2 ^ 64 }
    ensures { ends.new.items ≡ take start ends.old.items ++ (map (λ e. from + e) fresh.now ++ map (λ e. e - to + (from + added)) (drop end ends.old.items)) }
{
    shift(ends, end, to, from + added);
    open(ends, start, end, fresh.len(), 0);
    fill(ends, start, fresh, from);
}

/// Moves each end from `start` on from behind `from` to as far behind `to`.
pub(crate) fn shift(ends: &mut [usize], start: usize, from: usize, to: usize)
    requires within { start ≤ length ends.old }
    requires fits { All (λ e. (from ≤ e) × (e - from + to < 2 ^ 64)) (drop start ends.old) }
    ensures { ends.new ≡ take start ends.old ++ map (λ e. e - from + to) (drop start ends.old) }
{
    for i in start..ends.len() {
        ends[i] = ends[i] - from + to;
    }
}

/// Writes the fresh ends from `start` on, each as far behind `from` as it was behind 0.
fn fill(ends: &mut [usize], start: usize, fresh: &[usize], from: usize)
    requires within { start + length fresh.now ≤ length ends.old }
    requires fits { All (λ e. from + e < 2 ^ 64) fresh.now }
    ensures { ends.new ≡ take start ends.old ++ (map (λ e. from + e) fresh.now ++ drop (start + length fresh.now) ends.old) }
{
    for i in 0..fresh.len() {
        ends[start + i] = from + fresh[i];
    }
}
