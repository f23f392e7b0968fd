//! Laws of the definitions alone. A call of them does nothing.

ghost use Rattle.dm_send.specs.Laws.{BaseIsNamed, LeavingKeepsKinds, NoBaseKeepsNothing};

/// What stays and what goes has no other kinds of primitives than the repository: so a mirror can keep the one, and take the other.
pub fn leaving_keeps_kinds()
    ensures { LeavingKeepsKinds }
{}

/// The context of a minimal bundle names all patches of the base behind which it is minimal: so whoever takes it has to hold the base.
pub fn base_is_named()
    ensures { BaseIsNamed }
{}

/// Without a base, a minimal bundle names just what it needs.
pub fn no_base_keeps_nothing()
    ensures { NoBaseKeepsNothing }
{}
