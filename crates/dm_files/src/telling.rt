//! What a command says on standard error besides an answer, and how it ends without one.
use crate::word_fault::{Reason, Told, WordFault, has_reason};
use dm_commands::write_text;
use std::io;
use std::rt::Runtime;

/// The exit status where there is no answer.
pub const NO_ANSWER: u8 = 2;

/// How a command tells why there is no answer.
#[derive(Clone, Copy, Debug, PartialEq, Eq)]
pub enum Manner {
    /// By one fixed line.
    Short,
    /// By that line, and the reason after it.
    Explained,
    /// By one line with the file and the reason.
    Full,
}

/// How `dm check`, `dm run` and `dm apply` without a mirror tell it: their lines are fixed, and `--explain` adds the reason.
pub fn fixed_manner(explain: bool) -> Manner {
    if explain {
        Manner::Explained
    } else {
        Manner::Short
    }
}

/// Prints why there is no answer. Where that fails too, the exit status alone tells it.
pub fn tell<R: Runtime + AllocGlobal>(rt: &R, manner: Manner, fault: WordFault<'_>) -> u8 {
    let _ = match manner {
        Manner::Short => eprintln!(rt; "dm: {fault}"),
        Manner::Explained if has_reason(fault) => {
            let reason = Reason(fault);
            eprintln!(rt; "dm: {fault}\n{reason}")
        }
        Manner::Explained => eprintln!(rt; "dm: {fault}"),
        Manner::Full => {
            let told = Told(fault);
            eprintln!(rt; "dm: {told}")
        }
    };
    NO_ANSWER
}

/// What standard output is for.
#[derive(Clone, Copy, Debug, PartialEq, Eq)]
pub enum Output {
    /// Lines that say what became of a command.
    Lines,
    /// A bundle and nothing else: who awaits one gets no other line.
    Bundle,
    /// A line of JSON, for programs.
    Json,
}

/// Writes the line of a refusal, to standard error where standard output is for a bundle.
pub fn write_refusal<'a>(
    rt: &HostRuntime,
    output: Output,
    line: &[u8],
) -> Result<(), WordFault<'a>> {
    match output {
        Output::Lines | Output::Json => write_text(line, &mut io::writer(rt))?,
        Output::Bundle => write_text(line, &mut rt.stderr())?,
    }
    Ok(())
}

/// The exit status of a command that has run.
pub fn exit_status<R: Runtime + AllocGlobal>(
    rt: &R,
    manner: Manner,
    answer: Result<u8, WordFault<'_>>,
) -> u8 {
    match answer {
        Ok(status) => status,
        Err(WordFault::Said) => NO_ANSWER,
        Err(fault) => tell(rt, manner, fault),
    }
}
