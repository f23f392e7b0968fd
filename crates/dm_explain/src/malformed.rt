//! What is wrong with a text that is no bundle, and where.
ghost use Rattle.std.specs.Prelude.{◌≡◌, ◌≤◌, length};

use crate::merged::{begins_merged, write_merged};
use crate::paths::write_limit;
use crate::place::{Place, place_of};
use crate::seeming::{Seeming, seeming_at, seeming_of};
use dm_named::{FaultKind, Limits, ReadFault};
use dm_quoted::Quoted;
use std::fmt::{self, Display, Formatter, Write};

/// So many bytes of a line are shown.
const WIDTH: usize = 60;

/// So many of them at most before the place.
const BEFORE: usize = 40;

/// What helps where a text has a primitive of a kind that isn't read.
#[derive(Clone, Copy, PartialEq, Eq, Debug)]
pub enum Remedy {
    /// Nothing: all kinds are read.
    Known,
    /// Nothing: six kinds are read, whatever is said.
    Nothing,
    /// The word by which a command reads all kinds.
    Word,
    /// The command by which a mirror comes to read all kinds.
    Mirror,
}

/// A text that is no bundle, and its fault. It prints itself in lines for people.
#[derive(Clone, Copy)]
pub struct Malformed<'a> {
    /// The text.
    pub text: &'a [u8],
    /// Its fault.
    pub fault: ReadFault,
    /// What helps where a kind of primitives isn't read.
    pub remedy: Remedy,
}

impl<'a> Malformed<'a> {
    /// The fault of a text.
    pub fn new(text: &'a [u8], fault: ReadFault, remedy: Remedy) -> Malformed<'a>
        ensures text { result.text.now ≡ text.now }
        ensures fault { result.fault ≡ fault }
        ensures remedy { result.remedy ≡ remedy }
    {
        Malformed {
            text,
            fault,
            remedy,
        }
    }
}

/// What was due at the place of a fault that is none of a limit.
fn due(kind: FaultKind, remedy: Remedy) -> &'static str {
    match kind {
        FaultKind::NoNewPatches =>
            "no line is `New patches:`, with which the patches of a bundle begin",
        FaultKind::BadInfo =>
            "a patch info was due: `[name`, a line `author**date`, the log, and `]`",
        FaultKind::Inverted =>
            "this is the patch info of an inverted patch, which a bundle can't have",
        FaultKind::BadDepends => "a patch info was due, or the `>` that ends the dependencies",
        FaultKind::BadPatch => "a primitive was due, or the `}` that ends the patch",
        FaultKind::Unsupported if remedy == Remedy::Known =>
            "dm knows addfile, rmfile, adddir, rmdir, move, hunk, binary, replace and changepref; this is something else",
        FaultKind::Unsupported =>
            "dm knows addfile, rmfile, adddir, rmdir, move and hunk; this is something else",
        FaultKind::BadPath => "a path was due, such as ./docs/notes.txt",
        FaultKind::BadNumber => "a line number was due, and nothing after it in its line",
        FaultKind::EmptyHunk => "this hunk has neither old nor new lines",
        FaultKind::Unclosed => "the text ends here, before the `}` that ends the patch",
        FaultKind::NoContext => "the next patch was due, or the line `Context:`",
        FaultKind::Doubled => "this patch stands in the bundle before",
        FaultKind::BadHex =>
            "the bytes of a file were due: `oldhex` or `newhex`, and lines of a `*` and two hex digits for each byte",
        FaultKind::BadTokens =>
            "a set of bytes was due, such as [A-Za-z_0-9], and two words of its bytes: the old token and the new one",
        FaultKind::BadPreference =>
            "a preference was due: its name, and on the next two lines its old and its new value",
        FaultKind::TooLarge | FaultKind::TooMany => "this is more than a bundle has",
        FaultKind::NoMemory => "memory ran out here",
    }
}

/// Writes what was due at the place of a fault, or which limit is passed there.
fn write_due<W: Write>(f: &mut Formatter<W>, kind: FaultKind, remedy: Remedy) -> fmt::Result {
    let Limits {
        bytes,
        patches,
        prims,
        replaces,
        ..
    } = Limits::STANDARD;
    match kind {
        FaultKind::TooLarge => writeln!(
            f,
            "a bundle has at most {bytes} bytes; --repository reads a larger one of your own"
        ),
        FaultKind::TooMany if remedy == Remedy::Known => writeln!(
            f,
            "a bundle has at most {patches} new patches and {replaces} replaces, and a patch at most {prims} primitives; --repository reads a larger one of your own"
        ),
        FaultKind::TooMany => writeln!(
            f,
            "a bundle has at most {patches} new patches, and a patch at most {prims} primitives; --repository reads a larger one of your own"
        ),
        _ => writeln!(f, "{}", due(kind, remedy)),
    }
}

/// As many blanks as the characters that are written to it.
#[derive(Drop)]
struct Blanks<'f, W> {
    to: &'f mut W,
}

impl<W: Write> Write for Blanks<'_, W> {
    fn write_str(&mut self, text: &str) -> fmt::Result {
        for _ in text.chars() {
            self.to.write_char(' ')?;
        }
        Ok(())
    }
}

/// Writes the line of a place, cut where it is long, and a caret under the place.
fn write_place<W: Write>(f: &mut Formatter<W>, text: &[u8], place: Place, at: usize) -> fmt::Result
    requires start { place.start ≤ at }
    requires end { at ≤ place.end }
    requires within { place.end ≤ length text.now }
{
    let from = at - (at - place.start).min(BEFORE);
    let to = place.end.min(from + WIDTH);
    let line = Quoted {
        text: &text[from..to],
    };
    let before = Quoted {
        text: &text[from..at],
    };
    write!(f, "  {line}\n ")?;
    let mut blanks = Blanks { to: f };
    write!(blanks, "{before}")?;
    writeln!(f, "^")
}

/// Whether a binary, a replace or a change of a preference begins a text.
fn begins_wider(text: &[u8]) -> bool {
    text.starts_with(b"binary".as_slice())
        || text.starts_with(b"replace".as_slice())
        || text.starts_with(b"changepref".as_slice())
}

/// Writes what helps where a primitive's kind isn't read.
fn write_remedy<W: Write>(f: &mut Formatter<W>, remedy: Remedy) -> fmt::Result {
    f.write_str(match remedy {
        Remedy::Known => "",
        Remedy::Nothing => {
            "dm run reads no binaries, replaces or changes of preferences. dm apply does:\n  dm apply --all-kinds\n"
        }
        Remedy::Word => "--all-kinds reads binaries, replaces and changes of preferences, too.\n",
        Remedy::Mirror => {
            "This mirror reads no binaries, replaces or changes of preferences. Have it read them:\n  dm upgrade --mirror MIRROR\n"
        }
    })
}

/// Writes what helps where a patch was merged with one that it conflicts with.
fn write_unmerging<W: Write>(f: &mut Formatter<W>, remedy: Remedy) -> fmt::Result {
    f.write_str(
        "The sender makes one patch of their own. The files stay as they are:\n  darcs unrecord --not-in-remote\n  darcs record --look-for-adds\n  darcs send --no-minimize\n",
    )?;
    write_moving_on(f, remedy)
}

/// Writes how the mirror begins anew, behind patches that no bundle can have.
fn write_moving_on<W: Write>(f: &mut Formatter<W>, remedy: Remedy) -> fmt::Result {
    match remedy {
        Remedy::Nothing => Ok(()),
        Remedy::Known | Remedy::Word | Remedy::Mirror => f.write_str(
            "Where it is history that stays, the mirror begins anew at a later tag of the repository:\n  darcs tag NAME\n  dm-from-darcs --move-on REPOSITORY MIRROR\n",
        ),
    }
}

/// Writes how a bundle gets smaller.
fn write_smaller<W: Write>(f: &mut Formatter<W>, remedy: Remedy) -> fmt::Result {
    f.write_str(
        "The sender sends some of the patches first:\n  darcs send -p NAME\nA patch that is past the limit by itself is recorded anew in parts, and each part sent:\n  darcs unrecord -p NAME\n  darcs record PART\n  darcs send\n",
    )?;
    write_moving_on(f, remedy)
}

/// Writes how somebody gets a sound bundle.
fn write_sound<W: Write>(f: &mut Formatter<W>) -> fmt::Result {
    f.write_str("Ask for the bundle as darcs writes it:\n  darcs send -o FILE\n")
}

/// Whether a fault is of the text as a whole.
fn is_of_whole(kind: FaultKind) -> bool {
    kind == FaultKind::TooLarge || kind == FaultKind::NoNewPatches
}

/// Writes what helps where a patch isn't read whose body is after a text. Returns whether it is known.
fn write_supported<W: Write>(
    f: &mut Formatter<W>,
    before: &[u8],
    body: &[u8],
    remedy: Remedy,
) -> Result<bool, fmt::Error> {
    if begins_merged(body) {
        write_merged(f, before)?;
        write_unmerging(f, remedy)?;
        return Ok(true);
    }
    if remedy == Remedy::Known {
        return Ok(false);
    }
    if begins_wider(body) {
        write_remedy(f, remedy)?;
        return Ok(true);
    }
    Ok(false)
}

/// Writes what helps against a fault between two parts of a text. Returns whether it is known.
fn write_step<W: Write>(
    f: &mut Formatter<W>,
    kind: FaultKind,
    before: &[u8],
    after: &[u8],
    remedy: Remedy,
) -> Result<bool, fmt::Error> {
    match kind {
        FaultKind::Unsupported => write_supported(f, before, after, remedy),
        FaultKind::BadPath => write_limit(f, after),
        FaultKind::TooLarge | FaultKind::TooMany => {
            write_smaller(f, remedy)?;
            Ok(true)
        }
        FaultKind::NoMemory => Ok(true),
        _ => Ok(false),
    }
}

/// Writes what a text looks like, and how to get a sound one where nothing else helps.
fn write_seeming<W: Write>(
    f: &mut Formatter<W>,
    seeming: Option<Seeming>,
    is_helped: bool,
) -> fmt::Result {
    let mut is_done = is_helped;
    if let Some(seeming) = seeming {
        writeln!(f, "{seeming}")?;
        is_done = is_helped || seeming.has_step();
    }
    if is_done {
        return Ok(());
    }
    write_sound(f)
}

impl Malformed<'_> {
    /// Writes a fault of the text as a whole.
    fn write_whole<W: Write>(&self, f: &mut Formatter<W>) -> fmt::Result {
        let kind = self.fault.kind;
        write_due(f, kind, self.remedy)?;
        let is_helped = write_step(f, kind, b"", b"", self.remedy)?;
        write_seeming(f, seeming_of(self.text), is_helped)
    }

    /// Writes a fault that has a place.
    fn write_placed<W: Write>(&self, f: &mut Formatter<W>) -> fmt::Result {
        let kind = self.fault.kind;
        let at = self.fault.at.min(self.text.len());
        let place = place_of(self.text, at);
        let column = at - place.start + 1;
        write!(f, "line {}, column {column}: ", place.line)?;
        write_due(f, kind, self.remedy)?;
        write_place(f, self.text, place, at)?;
        let is_helped = write_step(f, kind, &self.text[..at], &self.text[at..], self.remedy)?;
        let line = &self.text[place.start..place.end];
        write_seeming(f, seeming_at(self.text, line), is_helped)
    }
}

impl Display for Malformed<'_> {
    fn fmt<W: Write>(&self, f: &mut Formatter<W>) -> fmt::Result {
        if is_of_whole(self.fault.kind) {
            return self.write_whole(f);
        }
        self.write_placed(f)
    }
}
