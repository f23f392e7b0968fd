//! How a mirror begins at a tag: with the names of a file, and the tree of a folder.
use crate::files::read_file;
use crate::names_fault::NamesFault;
use crate::word_fault::WordFault;
use dm_begin::BeginFault;
use dm_bundle::read_bundle_within;
use dm_commands::{StartFault, ToolFault, repo_at_tag};
use dm_folder::{FolderFault, Special, SystemFolder, read_folder};
use dm_info::Info;
use dm_named::{Kinds, Limits};
use dm_repo::Repo;
use dm_send::read_names;
use dm_tree::Tree;
use dm_words::Init;
use std::alloc::Global;
use std::rt::Runtime;

/// The names that the context of a file tells, oldest first.
fn read_covered<'a>(rt: &HostRuntime, name: &'a str) -> Result<Vec<Info<Global>>, WordFault<'a>> {
    let limits = Limits::OWN.with_kinds(Kinds::All);
    let text = read_file(rt, name, limits)?;
    if let Ok(bundle) = read_bundle_within(rt.alloc(), &text, limits) {
        if bundle.new_patches().len() > 1 {
            return Err(WordFault::Names(NamesFault::NoContext(name)));
        }
    }
    match read_names(rt.alloc(), &text, limits) {
        Ok(mut names) => {
            names.reverse();
            Ok(names)
        }
        Err(fault) => match ToolFault::of_names(fault) {
            ToolFault::BadNames(fault) => Err(WordFault::Names(NamesFault::BadNames(name, fault))),
            fault => Err(WordFault::Tool(fault)),
        },
    }
}

/// Says why a folder isn't read: of what no tree may have, all of it.
fn refuse_folder<'a>(rt: &HostRuntime, folder: &str, fault: &FolderFault) -> WordFault<'a> {
    if let FolderFault::NoMemory = fault {
        return WordFault::Tool(ToolFault::NoMemory);
    }
    let _ = match fault {
        FolderFault::Refused(_) => eprintln!(rt; "dm: cannot read {folder}: {fault}"),
        _ => eprintln!(rt; "dm: {fault}"),
    };
    if let FolderFault::Refused(refused) = fault {
        for one in refused {
            let _ = eprintln!(rt; "{one}");
        }
    }
    WordFault::Said
}

/// The tree of a folder.
fn read_tree<'a>(
    rt: &HostRuntime,
    folder: &str,
    special: Special,
) -> Result<Tree<Global>, WordFault<'a>> {
    let mut source = SystemFolder::new(*rt);
    match read_folder(rt.alloc(), &mut source, folder, special) {
        Ok(tree) => Ok(tree),
        Err(fault) => Err(refuse_folder(rt, folder, &fault)),
    }
}

/// Why a mirror can't begin with so many names of this file and the tree of the folder.
fn refuse_start<'a>(
    name: &'a str,
    folder: &'a str,
    count: usize,
    fault: StartFault,
) -> WordFault<'a> {
    match fault {
        StartFault::NoTag => WordFault::Names(NamesFault::NoTag(name)),
        StartFault::NoEntry => WordFault::Names(NamesFault::EmptyFolder(folder)),
        StartFault::Beginning(BeginFault::NoMemory) => WordFault::Tool(ToolFault::NoMemory),
        // The file tells the newest first, and is counted from 1.
        StartFault::Beginning(BeginFault::NameTwice(place)) => {
            WordFault::Names(NamesFault::NameTwice(name, count.saturating_sub(place)))
        }
        StartFault::Beginning(fault) => WordFault::Names(NamesFault::NoBeginning(name, fault)),
    }
}

/// The repository that begins with the names of a file, and with the tree of the folder that goes with them.
pub fn read_beginning<'a>(
    rt: &HostRuntime,
    asked: &Init<'a>,
    name: &'a str,
) -> Result<Repo<Global>, WordFault<'a>> {
    let names = read_covered(rt, name)?;
    let count = names.len();
    let folder = asked.folder.unwrap_or("");
    let special = if asked.skip_special {
        Special::Skip
    } else {
        Special::Refuse
    };
    let tree = read_tree(rt, folder, special)?;
    match repo_at_tag(rt.alloc(), names, tree) {
        Ok(repo) => Ok(repo),
        Err(fault) => Err(refuse_start(name, folder, count, fault)),
    }
}
