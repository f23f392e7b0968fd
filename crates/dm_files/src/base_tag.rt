//! What is said and refused of the tag with which a mirror begins.
ghost use Rattle.std.specs.Prelude.{◌≡◌, IfOk};

use crate::telling::{Output, write_refusal};
use crate::word_fault::WordFault;
use dm_commands::{base_tag, before_base_line};
use dm_deliver::Answer;
use dm_repo::Repo;
use dm_told::own_line;
use std::alloc::Global;
use std::rt::Runtime;

/// Says on standard error with which tag a mirror begins whose first patches, so many of them, are its base, if it does.
pub fn say_begun(rt: &HostRuntime, repo: &Repo<Global>, base: usize) {
    if let Some(tag) = base_tag(repo, base) {
        let _ = eprintln!(rt; "dm: the mirror begins at {tag}");
    }
}

/// The same with how many names are behind the tag.
pub fn say_base(rt: &HostRuntime, repo: &Repo<Global>, base: usize) {
    let Some(tag) = base_tag(repo, base) else {
        return;
    };
    let _ = match tag.count() {
        1 => eprintln!(rt; "dm: the mirror begins at {tag} (1 name)"),
        count => eprintln!(rt; "dm: the mirror begins at {tag} ({count} names)"),
    };
}

/// Writes the line where something doesn't rest on the whole base, and says what was left.
pub fn refuse_before_base<'a>(
    rt: &HostRuntime,
    output: Output,
    repo: &Repo<Global>,
    base: usize,
    left: &str,
) -> Result<u8, WordFault<'a>>
    ensures { IfOk result (λ status. status ≡ 1) }
{
    let line = match output {
        Output::Json => own_line(rt.alloc(), repo, Answer::BeforeBase)?,
        _ => before_base_line(rt.alloc())?,
    };
    write_refusal(rt, output, &line)?;
    if let Some(tag) = base_tag(repo, base) {
        let _ = eprintln!(rt; "dm: {left}: the mirror begins at {tag}");
    }
    Ok(1)
}
