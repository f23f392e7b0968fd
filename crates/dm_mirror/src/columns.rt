//! Lists of lists, column by column.
ghost use Rattle.std.specs.Prelude.{◌≡◌, ◌<◌, ◌≤◌, [], length, map};
ghost use Rattle.std.specs.List.{AllByRecursion};
ghost use Rattle.std.specs.VecDeque.{deque_capacity};
ghost use Rattle.dm_mirror.specs.Lists.{AreHeads};

use std::collections::VecDeque;

// The first of each list, the lists without it, and the room that the lists were in.
#[derive(Drop)]
pub(crate) struct Column<T> {
    pub(crate) heads: VecDeque<T>,
    pub(crate) rests: VecDeque<VecDeque<T>>,
    pub(crate) room: VecDeque<VecDeque<T>>,
}

/// Takes the first of each list. There is room for them, and for the lists without them; the answer hands both on, with the
/// room that becomes free.
pub(crate) fn take_column<T: Drop>(
    rows: VecDeque<VecDeque<T>>,
    room: VecDeque<VecDeque<T>>,
    room_for_heads: VecDeque<T>,
) -> Column<T>
    requires filled { AllByRecursion (λ row. 0 < length row.items) rows.items }
    requires empty { (room.items ≡ []) × (room_for_heads.items ≡ []) }
    requires fits { (length rows.items ≤ deque_capacity room) × (length rows.items ≤ deque_capacity room_for_heads) }
    ensures heads { AreHeads (map (λ row. row.items) rows.items) result.heads.items (map (λ row. row.items) result.rests.items) }
    ensures room { (result.room.items ≡ []) × (deque_capacity result.room ≡ deque_capacity rows) }
    ensures capacity { (deque_capacity result.rests ≡ deque_capacity room) × (deque_capacity result.heads ≡ deque_capacity room_for_heads) }
{
    let mut rows = rows;
    let mut rests = room;
    let mut heads = room_for_heads;
    while let Some(row) = rows.pop_front() {
        let mut row = row;
        let Some(head) = row.pop_front() else {
            unreachable!()
        };
        heads.push_back_reserved(head);
        rests.push_back_reserved(row);
    }
    Column {
        heads,
        rests,
        room: rows,
    }
}
