//! The script for fish.

use super::{Script, Values, has_value, is_offered, values_of};
use clap::{Arg, Command};

/// What stands in front: no files, where none are meant.
const HEAD: &str = "\
# Completions of asl for fish.
complete -c asl -f
";

/// Where no command is there yet.
const FIRST: &str = "__fish_use_subcommand";

/// Puts the script for a program down.
pub(super) fn push_script(script: &mut Script<'_>, program: &Command<'_>) {
    script.push(HEAD);
    push_arguments(script, program, &[FIRST]);
    for command in program.get_subcommands() {
        push_command(script, command);
    }
}

/// Puts the lines of a command behind the script: one that offers it, and one for each of its arguments.
fn push_command(script: &mut Script<'_>, command: &Command<'_>) {
    let name = command.get_name();
    script.push_all(&["complete -c asl -n ", FIRST, " -a ", name]);
    push_description(script, command.get_about());
    push_arguments(
        script,
        command,
        &["'__fish_seen_subcommand_from ", name, "'"],
    );
}

/// Puts a line for each argument of a command that is offered behind the script, which holds under that condition.
fn push_arguments(script: &mut Script<'_>, command: &Command<'_>, condition: &[&str]) {
    for argument in command.get_arguments() {
        if is_offered(argument) {
            script.push("complete -c asl -n ");
            script.push_all(condition);
            push_argument(script, argument);
        }
    }
}

/// Puts what a line has of an argument behind the script.
fn push_argument(script: &mut Script<'_>, argument: &Arg<'_>) {
    if let Some(short) = argument.get_short() {
        script.push(" -s ");
        script.push_character(short);
    }
    if let Some(long) = argument.get_long() {
        script.push_all(&[" -l ", long]);
    }
    if has_value(argument) {
        script.push(" -r");
    }
    if has_value(argument) || argument.is_positional() {
        push_values(script, argument);
    }
    push_description(script, help_of(argument));
}

/// What is said of an argument: of an option its help.
fn help_of<'a>(argument: &Arg<'a>) -> Option<&'a str> {
    if argument.is_positional() {
        None
    } else {
        argument.get_help()
    }
}

/// Puts what a value of an argument may be behind the script.
fn push_values(script: &mut Script<'_>, argument: &Arg<'_>) {
    match values_of(argument, script.commands) {
        Values::Files => script.push(" -F"),
        Values::Words(words) => script.push_words(" -f -a '", words, "'"),
        Values::Unknown => script.push(" -f"),
    }
}

/// Puts a description, where there is one, and the end of the line behind the script.
fn push_description(script: &mut Script<'_>, description: Option<&str>) {
    if let Some(description) = description {
        script.push(" -d '");
        script.push_quoted(description, "\\");
        script.push("'");
    }
    script.push("\n");
}
