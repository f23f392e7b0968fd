//! What came of the calls of a writer, which contracts alone see.
ghost use Rattle.std.specs.Prelude.{◌≡◌, List, [], ◌∷◌};
ghost use Rattle.std.specs.Borrow.{ftrue};
ghost use Rattle.dm_deliver.specs.Calls.{Call, call_of};

use std::marker::{Model, PhantomData};

/// The calls of a writer, the newest first. No memory has them.
#[derive(Drop)]
pub struct CallLog {
    marker: PhantomData<u8>,
    pub ghost list: { List Call },
}

impl Model for CallLog {
    ghost also_owns = { λ _. ftrue };
}

impl CallLog {
    // No call yet.
    pub(crate) fn new() -> CallLog
        ensures { result.list ≡ [] }
    {
        CallLog {
            marker: PhantomData,
        }
    }

    // Adds the call that these stand for.
    pub(crate) fn note(&mut self, _numbers: &[u64], _bytes: &[u8])
        ensures { self.new.list ≡ call_of _numbers.now _bytes.now ∷ self.old.list }
    {}
}
