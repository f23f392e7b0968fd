//! Trees that are written to a folder, and read there again.
use dm_checkout::{CheckoutFault, FolderFault, Names, SystemDisk, checkout};
use dm_tree::{Lines, Path, Tree};
use std::alloc::Global;
use std::fs;
use std::os::unix::fs as unix_fs;

/// A directory `d` with a file `f` of the lines `a` and `b` in it.
fn tree_of_two(alloc: Global) -> Option<Tree<Global>> {
    let mut tree = Tree::new(alloc);
    let folder = Path::from_parts(alloc, &[b"d"]).ok()?;
    let file = Path::from_parts(alloc, &[b"d", b"f"]).ok()?;
    tree.add_dir(&folder).ok()?;
    tree.add_file(&file).ok()?;
    let mut lines = Lines::new(alloc);
    lines.push(b"a").ok()?;
    lines.push(b"b").ok()?;
    tree.edit(&file, 1, &Lines::new(alloc), &lines).ok()?;
    Some(tree)
}

/// A file whose name is no UTF-8.
fn odd_tree(alloc: Global) -> Option<Tree<Global>> {
    let mut tree = Tree::new(alloc);
    let file = Path::from_parts(alloc, &[b"\xff"]).ok()?;
    tree.add_file(&file).ok()?;
    Some(tree)
}

/// A directory with a file of a name that Git obeys, in another case, and with what some file systems drop; and a file beside it.
fn unsafe_tree(alloc: Global) -> Option<Tree<Global>> {
    let mut tree = Tree::new(alloc);
    let names: [&[&[u8]]; 4] = [
        &[b"d"],
        &[b"d", b".GIT. "],
        &[b"d", b".GIT. ", b"config"],
        &[b"d", b".gitignore"],
    ];
    tree.add_dir(&Path::from_parts(alloc, names[0]).ok()?).ok()?;
    tree.add_dir(&Path::from_parts(alloc, names[1]).ok()?).ok()?;
    tree.add_file(&Path::from_parts(alloc, names[2]).ok()?)
        .ok()?;
    tree.add_file(&Path::from_parts(alloc, names[3]).ok()?)
        .ok()?;
    Some(tree)
}

/// Directories in one another, with names so long that the path of the last has more than 4,095 bytes.
fn deep_tree(alloc: Global) -> Option<Tree<Global>> {
    let mut tree = Tree::new(alloc);
    let name = [b'n'; 250];
    let mut parts: Vec<&[u8]> = Vec::new(alloc);
    for _ in 0..31 {
        parts.push(&name).ok()?;
        tree.add_dir(&Path::from_parts(alloc, &parts).ok()?).ok()?;
    }
    parts.push(b"f").ok()?;
    tree.add_file(&Path::from_parts(alloc, &parts).ok()?).ok()?;
    Some(tree)
}

fn write(
    rt: &HostRuntime,
    tree: &Tree<Global>,
    folder: &str,
    names: Names,
) -> Result<usize, CheckoutFault> {
    let mut disk = SystemDisk::new(*rt);
    checkout(rt.alloc(), &mut disk, tree, folder, names, &mut ())
}

/// Whether the tree is written to the folder, and refused there then.
fn is_written_once(rt: &HostRuntime, folder: &str) -> bool {
    let Some(tree) = tree_of_two(rt.alloc()) else {
        return false;
    };
    let Ok(2) = write(rt, &tree, folder, Names::Safe) else {
        return false;
    };
    let Ok(file) = format!(in rt.alloc(); "{folder}/d/f") else {
        return false;
    };
    match fs::read(rt, file.as_str()) {
        Ok(bytes) if bytes.as_slice() == b"a\nb\n".as_slice() => {}
        _ => return false,
    }
    let again = write(rt, &tree, folder, Names::Safe);
    matches!(again, Err(CheckoutFault::Folder(FolderFault::NotEmpty)))
}

/// Whether a tree with an odd name is refused, and no folder is made.
fn is_refused(rt: &HostRuntime, folder: &str) -> bool {
    let Some(tree) = odd_tree(rt.alloc()) else {
        return false;
    };
    let Err(CheckoutFault::NotUtf8(_)) = write(rt, &tree, folder, Names::All) else {
        return false;
    };
    matches!(fs::exists(rt, folder), Ok(false))
}

/// Whether a tree with names that Git obeys is refused, with both paths told, and no folder is made.
fn is_unsafe(rt: &HostRuntime, folder: &str) -> bool {
    let Some(tree) = unsafe_tree(rt.alloc()) else {
        return false;
    };
    let Err(CheckoutFault::UnsafeNames(places)) = write(rt, &tree, folder, Names::Safe) else {
        return false;
    };
    if places.len() != 2 || places[0].place.bytes.as_slice() != b"/d/.GIT. ".as_slice() {
        return false;
    }
    matches!(fs::exists(rt, folder), Ok(false))
}

/// Whether the same tree is written where all names are asked for.
fn is_written_with_all_names(rt: &HostRuntime, folder: &str) -> bool {
    let Some(tree) = unsafe_tree(rt.alloc()) else {
        return false;
    };
    let Ok(4) = write(rt, &tree, folder, Names::All) else {
        return false;
    };
    let Ok(file) = format!(in rt.alloc(); "{folder}/d/.GIT. /config") else {
        return false;
    };
    matches!(fs::exists(rt, file.as_str()), Ok(true))
}

/// Whether a path that is longer than the system takes is written.
fn is_written_deep(rt: &HostRuntime, folder: &str) -> bool {
    let Some(tree) = deep_tree(rt.alloc()) else {
        return false;
    };
    matches!(write(rt, &tree, folder, Names::Safe), Ok(32))
}

/// Whether no folder is taken where a link, a file or the root stands, however it is written.
fn is_no_folder(rt: &HostRuntime, folder: &str, fault: FolderFault) -> bool {
    let Some(tree) = tree_of_two(rt.alloc()) else {
        return false;
    };
    match (write(rt, &tree, folder, Names::Safe), fault) {
        (Err(CheckoutFault::Folder(FolderFault::NotFolder)), FolderFault::NotFolder) => true,
        (Err(CheckoutFault::Folder(FolderFault::NotEmpty)), FolderFault::NotEmpty) => true,
        _ => false,
    }
}

#[test]
fn a_tree_is_written_once(rt: HostRuntime) {
    let folder = "written-once";
    let _ = fs::remove_dir_all(&rt, folder);
    assert!(rt; is_written_once(&rt, folder));
    assert!(rt; fs::remove_dir_all(&rt, folder).is_ok());
}

#[test]
fn an_odd_name_is_refused_before_anything_is_written(rt: HostRuntime) {
    assert!(rt; is_refused(&rt, "never-made"));
}

#[test]
fn names_that_git_obeys_are_refused_and_told(rt: HostRuntime) {
    assert!(rt; is_unsafe(&rt, "never-made-either"));
}

#[test]
fn all_names_are_written_where_they_are_asked_for(rt: HostRuntime) {
    let folder = "written-with-all-names";
    let _ = fs::remove_dir_all(&rt, folder);
    assert!(rt; is_written_with_all_names(&rt, folder));
    assert!(rt; fs::remove_dir_all(&rt, folder).is_ok());
}

#[test]
fn a_long_path_is_written(rt: HostRuntime) {
    let folder = "written-deep";
    let _ = fs::remove_dir_all(&rt, folder);
    assert!(rt; is_written_deep(&rt, folder));
    assert!(rt; fs::remove_dir_all(&rt, folder).is_ok());
}

#[test]
fn a_link_and_the_root_are_not_taken(rt: HostRuntime) {
    assert!(rt; is_no_folder(&rt, "/", FolderFault::NotEmpty));
    assert!(rt; is_no_folder(&rt, "//.", FolderFault::NotEmpty));
    let _ = fs::remove_file(&rt, "link-to-nothing");
    let _ = fs::remove_dir_all(&rt, "linked");
    assert!(rt; fs::create_dir(&rt, "linked").is_ok());
    assert!(rt; unix_fs::symlink(&rt, "linked", "link-to-nothing").is_ok());
    for way in [
        "link-to-nothing",
        "link-to-nothing/",
        "link-to-nothing/.",
        "link-to-nothing//./",
    ] {
        assert!(rt; is_no_folder(&rt, way, FolderFault::NotFolder));
    }
    assert!(rt; fs::remove_file(&rt, "link-to-nothing").is_ok());
    assert!(rt; fs::remove_dir_all(&rt, "linked").is_ok());
}
