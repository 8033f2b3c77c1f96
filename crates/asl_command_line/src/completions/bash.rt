//! The script for bash.

use super::{Script, Values, has_value, values_of};
use clap::{Arg, Command};

/// What stands in front of the cases: which words are at hand.
const HEAD: &str = r#"# Completions of asl for bash.
_asl() {
    local current="${COMP_WORDS[COMP_CWORD]}" previous="${COMP_WORDS[COMP_CWORD - 1]}"
    local command= options= values= files=
    # A value behind "=" is a word of its own, and so is "=".
    if [[ $current == = ]]; then
        current=
    elif [[ $previous == = && $COMP_CWORD -gt 2 ]]; then
        previous="${COMP_WORDS[COMP_CWORD - 2]}"
    fi
    if [[ $COMP_CWORD -gt 1 ]]; then
        command="${COMP_WORDS[1]}"
    fi
    case "$command $previous" in
"#;

/// What stands behind the cases: what is offered. Files are named by bash itself, where nothing is offered.
const TAIL: &str = r#"    esac
    if [[ -z $files ]]; then
        compopt +o default +o bashdefault 2>/dev/null
    fi
    if [[ $current == -* ]]; then
        values=$options
    fi
    COMPREPLY=($(compgen -W "$values" -- "$current"))
}
complete -o bashdefault -o default -F _asl asl
"#;

/// Puts the script for a program down.
pub(super) fn push_script(script: &mut Script<'_>, program: &Command<'_>) {
    script.push(HEAD);
    push_cases(script, program);
    script.push(TAIL);
}

/// Puts the cases of all commands behind the script, and the one where no command is there yet.
fn push_cases(script: &mut Script<'_>, program: &Command<'_>) {
    for command in program.get_subcommands() {
        push_command(script, command);
    }
    script.push("        \" \"*) options='");
    push_options(script, program);
    let commands = script.commands;
    script.push_words(" values='", commands, "' ;;\n");
}

/// Puts the cases of a command behind the script. In front of its own stand those of its options that have a value.
fn push_command(script: &mut Script<'_>, command: &Command<'_>) {
    let name = command.get_name();
    for argument in command.get_arguments() {
        if has_value(argument) {
            push_option(script, name, argument);
        }
    }
    script.push_all(&["        \"", name, " \"*) options='"]);
    push_options(script, command);
    if let Some(argument) = command.get_arguments().iter().find(|it| it.is_positional()) {
        push_values(script, argument);
    }
    script.push(" ;;\n");
}

/// Puts the case of an option that has a value behind the script.
fn push_option(script: &mut Script<'_>, command: &str, argument: &Arg<'_>) {
    if let Some(long) = argument.get_long() {
        script.push_all(&["        \"", command, " --", long, "\")"]);
        push_values(script, argument);
        script.push(" ;;\n");
    }
}

/// Puts the options of a command behind the script, and the quote that ends them.
fn push_options(script: &mut Script<'_>, command: &Command<'_>) {
    for argument in command.get_arguments() {
        if let Some(short) = argument.get_short() {
            script.push("-");
            script.push_character(short);
            script.push(" ");
        }
        if let Some(long) = argument.get_long() {
            script.push_all(&["--", long, " "]);
        }
    }
    script.push("'");
}

/// Puts what a value of an argument may be behind the script.
fn push_values(script: &mut Script<'_>, argument: &Arg<'_>) {
    match values_of(argument, script.commands) {
        Values::Files => script.push(" files=yes"),
        Values::Words(words) => script.push_words(" values='", words, "'"),
        Values::Unknown => {}
    }
}
