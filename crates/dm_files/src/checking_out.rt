//! `dm checkout`.
use crate::mirror::read_repo;
use crate::progress::Meter;
use crate::telling::NO_ANSWER;
use crate::word_fault::WordFault;
use dm_checkout::{CheckoutFault, Names, SystemDisk, checkout};
use dm_words::Checkout;
use std::rt::Runtime;

/// Says why a tree isn't written.
fn say_unwritten(rt: &HostRuntime, folder: &str, fault: &CheckoutFault) {
    let _ = eprintln!(rt; "dm: cannot write {folder}: {fault}");
    if let CheckoutFault::UnsafeNames(list) = fault {
        for refused in list {
            let _ = eprintln!(rt; "{refused}");
        }
        let _ = eprintln!(rt;
            "Other tools obey such names. To write them all the same: --all-names"
        );
    }
}

/// `dm checkout`. Standard error may be a terminal. The mirror's file is let go before anything is written.
pub fn check_out<'a>(
    rt: &HostRuntime,
    asked: &Checkout<'a>,
    is_terminal: bool,
) -> Result<u8, WordFault<'a>> {
    let folder = asked.folder;
    let names = if asked.all_names {
        Names::All
    } else {
        Names::Safe
    };
    let kept = read_repo(rt, asked.mirror, asked.no_wait, is_terminal)?;
    let mut meter = Meter::new(*rt, is_terminal);
    let mut disk = SystemDisk::new(*rt);
    let written = checkout(
        rt.alloc(),
        &mut disk,
        kept.repo.tree(),
        folder,
        names,
        &mut meter,
    );
    meter.end();
    match written {
        Ok(_) => Ok(0),
        Err(fault) => {
            say_unwritten(rt, folder, &fault);
            Ok(NO_ANSWER)
        }
    }
}
