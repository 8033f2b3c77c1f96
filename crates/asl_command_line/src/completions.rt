//! Scripts by which a shell completes the words of a command line. They are made of the commands that `clap` has, so they
//! have each command and each option.

mod bash;
mod fish;
mod zsh;

use crate::commands::{FILES, program};
use crate::requests::Shell;
use asl_files::{end, print_text};
use asl_texts::RunFault;
use asl_tree::OutOfMemory;
use clap::builder::{ValueParser, ValueRange};
use clap::{Arg, Command};
use std::alloc::{AllocError, Global};

/// What a value of an argument may be.
#[derive(Clone, Copy)]
enum Values<'a> {
    /// A file's name.
    Files,
    /// One of these words.
    Words(&'a [&'a str]),
    /// Something of which nothing is known.
    Unknown,
}

/// A script as far as it is written. Where there was no memory for a piece, nothing stands behind those in front of it, and
/// there is no script in the end.
#[derive(Drop)]
struct Script<'c> {
    text: String,
    /// Whether there was memory for each piece.
    is_whole: bool,
    /// The names of the program's commands.
    commands: &'c [&'c str],
}

/// The argument of the command for help.
const TOPIC: &str = "subcommand";

/// Writes the script by which a shell completes the words of a command line to standard output, and gives the exit status.
pub fn print_completions<R: Print + Eprint + AllocGlobal>(rt: &R, shell: Shell) -> u8 {
    end(rt, completions_on(rt, shell))
}

/// Writes the script for a shell to standard output, and gives the exit status.
///
/// Refused: Write; OutOfMemory.
fn completions_on<R: Print + AllocGlobal>(rt: &R, shell: Shell) -> Result<u8, RunFault> {
    print_text(rt, &script_text(rt.alloc(), shell)?)?;
    Ok(0)
}

/// The script for a shell.
fn script_text(alloc: Global, shell: Shell) -> Result<String, OutOfMemory> {
    Ok(script_of_program(alloc, shell)?)
}

/// The script for a shell, made of the commands that `clap` has.
fn script_of_program(alloc: Global, shell: Shell) -> Result<String, AllocError> {
    let program = built_program(alloc)?;
    script_for(alloc, shell, &program)
}

/// The command line of the program, with what `clap` itself puts in.
fn built_program<'a>(alloc: Global) -> Result<Command<'a>, AllocError> {
    let mut program = program(alloc)?;
    program.build()?;
    Ok(program)
}

/// The names of a program's commands.
fn names_of_commands<'a>(
    alloc: Global,
    program: &'a Command<'_>,
) -> Result<Vec<&'a str>, AllocError> {
    let mut names = Vec::new(alloc);
    for command in program.get_subcommands() {
        names.push(command.get_name())?;
    }
    Ok(names)
}

/// The script for a shell and a program.
fn script_for(alloc: Global, shell: Shell, program: &Command<'_>) -> Result<String, AllocError> {
    let names = names_of_commands(alloc, program)?;
    let mut script = Script::new(alloc, &names);
    match shell {
        Shell::Bash => bash::push_script(&mut script, program),
        Shell::Zsh => zsh::push_script(&mut script, program),
        Shell::Fish => fish::push_script(&mut script, program),
    }
    script.into_text()
}

/// What a value of this argument may be, where the program has commands of these names.
fn values_of<'a>(argument: &Arg<'a>, commands: &'a [&'a str]) -> Values<'a> {
    let name = argument.get_id();
    match argument.get_value_parser() {
        ValueParser::Names(words) => Values::Words(words),
        _ if FILES.iter().any(|file| *file == name) => Values::Files,
        _ if name == TOPIC => Values::Words(commands),
        _ => Values::Unknown,
    }
}

/// Whether this is an option that has a value.
fn has_value(argument: &Arg<'_>) -> bool {
    !argument.is_positional() && argument.get_action().takes_values()
}

/// Whether this argument is an option, or the first that is none: those behind it are offered in the same way.
fn is_offered(argument: &Arg<'_>) -> bool {
    !argument.is_positional() || argument.get_index() == Some(1)
}

/// Whether this argument may have several values.
fn has_several(argument: &Arg<'_>) -> bool {
    argument
        .get_num_args()
        .unwrap_or(ValueRange::SINGLE)
        .max_values()
        > 1
}

impl<'c> Script<'c> {
    /// A script with nothing in it, for a program with commands of these names.
    fn new(alloc: Global, commands: &'c [&'c str]) -> Script<'c> {
        Script {
            text: String::new(alloc),
            is_whole: true,
            commands,
        }
    }

    /// The text of the script; where there was no memory for all of it, that is refused.
    fn into_text(self) -> Result<String, AllocError> {
        if self.is_whole {
            Ok(self.text)
        } else {
            Err(AllocError)
        }
    }

    /// Puts a piece behind the script.
    fn push(&mut self, piece: &str) {
        if self.is_whole {
            self.is_whole = self.text.push_str(piece).is_ok();
        }
    }

    /// Puts a character behind the script.
    fn push_character(&mut self, character: char) {
        if self.is_whole {
            self.is_whole = self.text.push(character).is_ok();
        }
    }

    /// Puts pieces behind the script.
    fn push_all(&mut self, pieces: &[&str]) {
        for piece in pieces {
            self.push(piece);
        }
    }

    /// Puts the words, with a space between each two of them, behind the script, and what stands around them.
    fn push_words(&mut self, front: &str, words: &[&str], back: &str) {
        self.push(front);
        for (place, word) in words.iter().enumerate() {
            if place > 0 {
                self.push(" ");
            }
            self.push(word);
        }
        self.push(back);
    }

    /// Puts a description behind the script, as it stands within single quotes of a shell: an apostrophe leaves them, and a
    /// special character has a backslash in front.
    fn push_quoted(&mut self, description: &str, special: &str) {
        for character in description.chars() {
            if character == '\'' {
                self.push("'\\'");
            } else if special.contains(character) {
                self.push("\\");
            }
            self.push_character(character);
        }
    }
}
