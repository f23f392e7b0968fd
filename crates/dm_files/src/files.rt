//! The files that the words of a command name.
ghost use Rattle.std.specs.Prelude.{ℕ, List, Some, IfOk};
ghost use Rattle.dm_files.specs.Bases.{AreAlike, IsBaseOf, IsReadAs, named_base};

use crate::input::{INPUT, Input, InputFault};
use crate::word_fault::WordFault;
use dm_commands::{Base, ToolFault, read_within};
use dm_named::{Kinds, Limits};
use dm_words::BaseWords;

/// Why there is no text of this name, where reading it gave a fault.
pub fn blame_input<'a>(input: &Input, name: &'a str, fault: ToolFault) -> WordFault<'a> {
    match (fault, input.fault()) {
        (ToolFault::Read, Some(InputFault::Mirror)) => WordFault::Mirror(name),
        (ToolFault::Read, Some(InputFault::Io(error))) if name == INPUT => {
            WordFault::UnreadableInput(error)
        }
        (ToolFault::Read, Some(InputFault::Io(error))) => WordFault::Unreadable(name, error),
        _ => WordFault::Tool(fault),
    }
}

/// The bytes of a file, or of standard input, to the end or one more than a text may have by these limits.
pub fn read_file<'a>(
    rt: &HostRuntime,
    name: &'a str,
    limits: Limits,
) -> Result<Vec<u8>, WordFault<'a>> {
    let mut input = Input::open(rt, name);
    match read_within(rt.alloc(), limits, &mut input) {
        Ok(text) => Ok(text),
        Err(fault) => Err(blame_input(&input, name, fault)),
    }
}

/// Files that are read by their names.
pub trait Files {
    /// The file of this name had these bytes when it was read, or began with them.
    ghost had: { Self → List ℕ → List ℕ → Type 0 };

    /// The bytes of the file of this name, to the end or one more than a text may have by these limits.
    fn text_of<'a>(&self, name: &'a str, limits: Limits) -> Result<Vec<u8>, WordFault<'a>>
        ensures { IfOk result (λ text. had self.now name.now text.items) };
}

/// The system's files, and standard input. What they have is the system's: no contract says it.
#[derive(Clone, Copy)]
pub struct SystemFiles {
    rt: HostRuntime,
}

impl SystemFiles {
    /// Those of the runtime.
    pub fn new(rt: &HostRuntime) -> SystemFiles {
        SystemFiles { rt: *rt }
    }
}

impl Files for SystemFiles {
    ghost had = { λ _ _ _. Unit {0} };

    fn text_of<'a>(&self, name: &'a str, limits: Limits) -> Result<Vec<u8>, WordFault<'a>> {
        read_file(&self.rt, name, limits)
    }
}

/// The text that a command begins with, the name of its file, and the limits within which it is read.
#[derive(Drop)]
pub struct BaseFile<'a> {
    pub name: &'a str,
    text: Vec<u8>,
    limits: Limits,
}

impl BaseFile<'_> {
    /// The base that it is.
    pub fn base(&self) -> Base<'_>
        ensures { IsBaseOf self.now result }
    {
        Base {
            text: &self.text,
            limits: self.limits,
        }
    }
}

/// The base that a file is, if there is one.
pub fn base_of<'f>(file: &'f Option<BaseFile<'_>>) -> Option<Base<'f>>
    ensures { AreAlike file.now result }
{
    match file {
        Some(file) => Some(file.base()),
        None => None,
    }
}

/// The file of this name, read within these limits and of these kinds.
fn read_named<'a, F: Files>(
    files: &F,
    name: &'a str,
    limits: Limits,
    kinds: Kinds,
) -> Result<Option<BaseFile<'a>>, WordFault<'a>>
    ensures { IfOk result (IsReadAs (F.had files.now) kinds (Some (name.now, limits))) }
{
    let limits = limits.with_kinds(kinds);
    let text = files.text_of(name, limits)?;
    Ok(Some(BaseFile { name, text, limits }))
}

/// The file that a repository begins with, of these kinds, if one is named.
pub fn read_base<'a, F: Files>(
    files: &F,
    words: BaseWords<'a>,
    kinds: Kinds,
) -> Result<Option<BaseFile<'a>>, WordFault<'a>>
    ensures { IfOk result (IsReadAs (F.had files.now) kinds (named_base words.entry.base words.entry.repository)) }
{
    match words.base {
        Some(name) => read_named(files, name, Limits::STANDARD, kinds),
        None => match words.repository {
            Some(name) => read_named(files, name, Limits::OWN, kinds),
            None => Ok(None),
        },
    }
}
