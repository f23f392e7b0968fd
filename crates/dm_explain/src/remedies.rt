//! What helps after a refusal: who does what, with the commands on lines of their own.
use crate::account::Clashing;
use crate::same::same_prim;
use dm_tree::TreeFault;
use std::fmt::{self, Formatter, Write};

/// Writes how a sender names all of the context, and not only what the new patches rest on.
pub(crate) fn write_whole_context<W: Write>(f: &mut Formatter<W>) -> fmt::Result {
    f.write_str(
        "The sender pulls what they lack, and sends the whole context:\n  darcs pull\n  darcs send --no-minimize\n",
    )
}

/// Writes how a sender makes a bundle of all that a mirror lacks.
pub(crate) fn write_against<W: Write>(f: &mut Formatter<W>) -> fmt::Result {
    f.write_str(
        "Give the sender the mirror's context, to send what it lacks:\n  dm log --mirror MIRROR --context > CONTEXT\n  darcs send --no-minimize --context CONTEXT\n",
    )
}

/// Writes how a sender makes a bundle of all that is lacking, which may be all patches.
pub(crate) fn write_against_any<W: Write>(f: &mut Formatter<W>) -> fmt::Result {
    write_against(f)?;
    f.write_str(
        "Where nothing is held, the context is empty:\n  printf '\\nContext:\\n\\n' > CONTEXT\n",
    )
}

/// Writes how a sender makes a bundle anew.
pub(crate) fn write_anew<W: Write>(f: &mut Formatter<W>) -> fmt::Result {
    f.write_str(
        "The bundle was changed since it was made, or rests on another patch of a name that is held. Ask for it once more:\n  darcs send --no-minimize\n",
    )
}

/// Writes how a project goes on where a repository can't hold more patches.
pub(crate) fn write_new_repository<W: Write>(f: &mut Formatter<W>) -> fmt::Result {
    f.write_str(
        "The project goes on in a new repository, which begins with the files as they are, and has a mirror of its own:\n  darcs clone REPOSITORY NEW\n  rm -r NEW/_darcs\n  darcs init NEW\n  darcs record --repodir NEW --look-for-adds\n  dm-from-darcs NEW NEW.dm\n",
    )
}

/// Writes how a patch stays within the limit that this fault is of.
pub(crate) fn write_within<W: Write>(f: &mut Formatter<W>, fault: TreeFault) -> fmt::Result {
    if fault == TreeFault::TooLarge {
        return f.write_str(
            "The sender takes the replace back, and changes the lines by hand:\n  darcs pull\n  darcs unrecord -p NAME\n  darcs revert\n  darcs record\n",
        );
    }
    write_shallower(f)
}

/// Writes how a patch gets a path of fewer names.
fn write_shallower<W: Write>(f: &mut Formatter<W>) -> fmt::Result {
    f.write_str(
        "The sender moves it to a path of fewer names, and records that anew:\n  darcs pull\n  darcs unrecord -p NAME\n  darcs move LONG SHORT\n  darcs record\n",
    )
}

/// Writes how a sender makes one patch, over one that it conflicts with.
fn write_one_patch<W: Write>(f: &mut Formatter<W>) -> fmt::Result {
    f.write_str(
        "The sender pulls, settles and records the conflict, and makes one patch of their own. The files stay as they are:\n  darcs pull\n  darcs record\n  darcs unrecord --not-in-remote\n  darcs record --look-for-adds\n  darcs send --no-minimize\n",
    )
}

/// Writes how a sender takes back what a held patch does too. Merged first, darcs-1 would take back both.
fn write_twin<W: Write>(f: &mut Formatter<W>) -> fmt::Result {
    f.write_str(
        "Both make the same change. The sender takes that of their own back, and no other, before they pull:\n  darcs unrecord --not-in-remote\n  darcs revert\n  darcs pull\n  darcs record\n  darcs send --no-minimize\nA folder that has files of theirs goes by another name in place of `darcs revert`:\n  darcs move FOLDER OTHER\n",
    )
}

/// Writes what helps where two patches conflict, by these primitives if they are known.
pub(crate) fn write_settling<W: Write>(
    f: &mut Formatter<W>,
    clashing: &Option<Clashing<'_>>,
) -> fmt::Result {
    let Some(pair) = clashing else {
        return write_one_patch(f);
    };
    if same_prim(pair.new, pair.held) {
        return write_twin(f);
    }
    write_one_patch(f)
}
