//! The commands: those that are answered here have a file each, and those that work on the files of mirrors are in `dm_files`.
ghost use Rattle.dm_tool.specs.Answers.{IsAnswered};

mod applying;
mod checking;
mod logging;
mod running;
mod sending;

use applying::apply;
use checking::check;
use dm_commands::{ToolFault, write_text};
use dm_files::{
    Files, Manner, NO_ANSWER, Outcome, SystemFiles, WordFault, apply_to_mirror, check_out,
    exit_status, fixed_manner, init, obliterate_chosen, roll_back_chosen, tell, upgrade,
};
use dm_remarks::{Colour, colour_of};
use dm_words::{Request, Unread, VERSION, Words, name_mirror};
use logging::log;
use running::run_plan;
use sending::send;
use std::rt::Runtime;
use std::sync::Wait;
use std::thread::Threads;
use std::{env, io};

/// `dm version`: what `dm --version` prints.
fn print_version<'a>(rt: &HostRuntime) -> Result<u8, WordFault<'a>> {
    let line = format!(in rt.alloc(); "dm {VERSION}\n")?;
    write_text(line.as_bytes(), &mut io::writer(rt))?;
    Ok(0)
}

/// Prints why the words start no command, or the help that they ask for, and returns the exit status.
fn say_why<R: Runtime + AllocGlobal>(rt: &R, unread: Unread) -> u8 {
    match unread {
        Unread::NoMemory => tell(rt, Manner::Short, WordFault::Tool(ToolFault::NoMemory)),
        Unread::Help(text) => match text.print(rt) {
            Ok(()) => 0,
            Err(_) => tell(rt, Manner::Short, WordFault::Tool(ToolFault::Write)),
        },
        Unread::Fault(text) => {
            let _ = text.print(rt);
            NO_ANSWER
        }
    }
}

/// How a command says why there is no answer.
fn manner_of(request: &Request<'_, '_>) -> Manner {
    match request {
        Request::Apply(asked) if asked.mirror.is_none() => fixed_manner(asked.explain),
        Request::Check(asked) => fixed_manner(asked.explain),
        Request::Run(asked) => fixed_manner(asked.explain),
        _ => Manner::Full,
    }
}

/// Runs a command, and returns what comes of it.
fn answer<'a, R: Runtime + AllocGlobal + Threads + Wait + Sync, F: Files>(
    rt: &R,
    host: &HostRuntime,
    files: &F,
    is_terminal: bool,
    request: &Request<'_, 'a>,
) -> Outcome<'a>
    ensures { IsAnswered (F.had files.now) request.now result }
{
    let colour = colour_of(rt, is_terminal);
    match request {
        Request::Apply(asked) => match asked.mirror {
            Some(path) => apply_to_mirror(host, files, colour, asked, path, is_terminal),
            None => Outcome::without_file(apply(host, files, colour, asked)),
        },
        Request::Check(asked) => Outcome::without_file(check(host, colour, asked)),
        Request::Checkout(asked) => Outcome::without_file(check_out(host, asked, is_terminal)),
        Request::Init(asked) => init(host, files, colour, asked, is_terminal),
        Request::Log(asked) => Outcome::without_file(log(host, asked, is_terminal)),
        Request::Obliterate(asked) => obliterate_chosen(host, colour, asked, is_terminal),
        Request::Rollback(asked) => {
            Outcome::without_file(roll_back_chosen(host, asked, is_terminal))
        }
        Request::Run(asked) => Outcome::without_file(run_plan(rt, host, files, colour, asked)),
        Request::Send(asked) => Outcome::without_file(send(host, colour, asked, is_terminal)),
        Request::Upgrade(asked) => Outcome::without_file(upgrade(host, asked, is_terminal)),
        Request::Version => Outcome::without_file(print_version(host)),
    }
}

/// Runs the command that these words ask for, and returns the exit status.
fn run_words<R: Runtime + AllocGlobal + Threads + Wait + Sync>(
    rt: &R,
    host: &HostRuntime,
    is_terminal: bool,
    words: &[String],
) -> u8 {
    let words = match Words::read(rt.alloc(), words) {
        Ok(words) => words,
        Err(unread) => return say_why(rt, unread),
    };
    let Some(request) = words.request() else {
        let _ = eprintln!(rt; "dm: a word that the command needs is missing");
        return NO_ANSWER;
    };
    let files = SystemFiles::new(host);
    let Outcome { answer, .. } = answer(rt, host, &files, is_terminal, &request);
    exit_status(rt, manner_of(&request), answer)
}

/// Runs the command of the process's own words, and returns the exit status. Standard error may be a terminal. `host` is the same
/// runtime as `rt`, for files.
pub fn start<R: Runtime + AllocGlobal + Threads + Wait + Sync>(
    rt: &R,
    host: &HostRuntime,
    is_terminal: bool,
) -> u8 {
    let Ok(args) = env::args(rt) else {
        let _ = eprintln!(rt; "dm: cannot read the command line");
        return NO_ANSWER;
    };
    match args.collect(rt.alloc()) {
        Ok(words) => {
            let mut words: Vec<String> = words;
            if let Err(fault) = name_mirror(rt.alloc(), &mut words) {
                return tell(rt, Manner::Short, WordFault::from(fault));
            }
            run_words(rt, host, is_terminal, &words)
        }
        Err(fault) => tell(rt, Manner::Short, WordFault::from(fault)),
    }
}
