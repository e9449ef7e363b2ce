//! The command of a driver, as the shell gets it.
use std::alloc::{AllocError, Global};

/// The words that a shell takes itself where a command's name stands.
const OWN: [&str; 52] = [
    ".", ":", "alias", "bg", "break", "builtin", "case", "cd", "command", "continue", "coproc",
    "declare", "do", "done", "echo", "elif", "else", "esac", "eval", "exec", "exit", "export",
    "false", "fc", "fg", "fi", "for", "function", "getopts", "hash", "if", "jobs", "kill", "let",
    "local", "printf", "pwd", "read", "readonly", "return", "select", "set", "shift", "source",
    "test", "then", "time", "times", "trap", "true", "type", "typeset",
];

/// More of them.
const MORE: [&str; 8] = [
    "ulimit", "umask", "unalias", "unset", "until", "wait", "while", "in",
];

/// Whether a byte means itself in a shell's text, or is a space.
fn is_plain(byte: u8) -> bool {
    byte.is_ascii_alphanumeric()
        || matches!(
            byte,
            b' ' | b'/' | b'.' | b'_' | b'-' | b'+' | b',' | b':' | b'@'
        )
}

/// Whether a command's name is that of a program to a shell.
fn names_program(name: &str) -> bool {
    match name.as_bytes() {
        [first, ..] => {
            *first != b' '
                && *first != b'-'
                && !OWN.iter().any(|own| *own == name)
                && !MORE.iter().any(|own| *own == name)
        }
        [] => false,
    }
}

/// Whether a shell takes this text for one program and its words.
fn is_program(text: &str) -> bool {
    let name = match text.split_once(' ') {
        Some((name, _)) => name,
        None => text,
    };
    names_program(name) && text.as_bytes().iter().all(|byte| is_plain(*byte))
}

/// The text of a command for the shell. One program with its words takes the shell's place, so that it is the child
/// itself, and not a child of the shell.
pub fn shell_text(alloc: Global, text: &str) -> Result<String, AllocError> {
    if is_program(text) {
        format!(in alloc; "exec {text}")
    } else {
        String::from_str(alloc, text)
    }
}
