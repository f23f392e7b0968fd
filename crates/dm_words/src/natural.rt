//! Words that are left out.
use std::alloc::{AllocError, Global};

/// Whether a command takes one mirror, and no other word at its front.
fn takes_mirror(command: &str) -> bool {
    command == "checkout" || command == "init" || command == "upgrade"
}

/// Whether `--mirror` is among the words.
fn names_mirror(words: &[String]) -> bool {
    words.iter().any(|word| word.starts_with("--mirror"))
}

/// Puts `--mirror` before a file that stands right behind one of the commands that need it: `dm checkout MIRROR FOLDER`.
pub fn name_mirror(alloc: Global, words: &mut Vec<String>) -> Result<(), AllocError> {
    if words.len() < 3 || !takes_mirror(&words[1]) || words[2].starts_with("-") {
        return Ok(());
    }
    if names_mirror(words) {
        return Ok(());
    }
    let word = format!(in alloc; "--mirror")?;
    words.insert(2, word)?;
    Ok(())
}
