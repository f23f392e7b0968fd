//! Values of a vector that take the place of others, in the room that it has.
ghost use Rattle.std.specs.Prelude.{◌≡◌, ◌+◌, ◌-◌, ◌≤◌, ◌++◌, List, length, take, drop, vec_len, vec_capacity};
ghost use Rattle.std.specs.List.{splice};

use std::alloc::Allocator;

/// Puts any `count` values in place of those from `start` to before `end`; there is room.
pub(crate) fn open<T: Copy, A: Allocator>(
    values: &mut Vec<T, A>,
    start: usize,
    end: usize,
    count: usize,
    blank: T,
)
    requires order { start ≤ end }
    requires within { end ≤ length values.old.items }
    requires room { vec_len values.old + count ≤ vec_capacity values.old + (end - start) }
    ensures { (gap : List T) × (length gap ≡ count) × (values.new.items ≡ take start values.old.items ++ (gap ++ drop end values.old.items)) }
{
    if count == end - start {
        return;
    }
    let len = values.len();
    let target = start + count;
    let new_len = target + (len - end);
    let Ok(()) = values.resize(len.max(new_len), blank) else {
        unreachable!()
    };
    values.copy_within(end..len, target);
    values.truncate(new_len);
}

/// Puts the fresh bytes in place of those from `start` to before `end`; there is room.
pub(crate) fn replace_bytes<A: Allocator>(
    bytes: &mut Vec<u8, A>,
    start: usize,
    end: usize,
    fresh: &[u8],
)
    requires order { start ≤ end }
    requires within { end ≤ length bytes.old.items }
    requires room { vec_len bytes.old + length fresh.now ≤ vec_capacity bytes.old + (end - start) }
    ensures { bytes.new.items ≡ splice bytes.old.items start end fresh.now }
{
    open(bytes, start, end, fresh.len(), 0);
    bytes[start..start + fresh.len()].copy_from_slice(fresh);
}
