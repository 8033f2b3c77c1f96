//! The script for zsh.

use super::{Script, Values, has_several, has_value, values_of};
use clap::{Arg, Command};

/// What stands in front of the options of the program.
const HEAD: &str = r#"#compdef asl
# Completions of asl for zsh.
_asl() {
    local context state line
    local -a commands
    _arguments -C"#;

/// What stands behind them, in front of the commands.
const COMMANDS: &str = r#" \
        '1:command:->command' \
        '*::argument:->argument'
    case $state in
        command)
            commands=(
"#;

/// What stands behind the commands, in front of their arguments.
const ARGUMENTS: &str = r#"            )
            _describe -t commands command commands
            ;;
        argument)
            case $words[1] in
"#;

/// What stands at the end. The script may be a file that is loaded by its name, or one that is read.
const TAIL: &str = r#"            esac
            ;;
    esac
}
if [[ $funcstack[1] == _asl ]]; then
    _asl "$@"
else
    compdef _asl asl
fi
"#;

/// What has a backslash in a description.
const SPECIAL: &str = "[]:\\";

/// Puts the script for a program down.
pub(super) fn push_script(script: &mut Script<'_>, program: &Command<'_>) {
    push_first_word(script, program);
    push_other_words(script, program);
}

/// Puts what is offered where no command is there yet behind the script: the options of the program, and the commands.
fn push_first_word(script: &mut Script<'_>, program: &Command<'_>) {
    script.push(HEAD);
    push_arguments(script, program);
    script.push(COMMANDS);
    push_names(script, program);
}

/// Puts what is offered behind each command behind the script, and its end.
fn push_other_words(script: &mut Script<'_>, program: &Command<'_>) {
    script.push(ARGUMENTS);
    for command in program.get_subcommands() {
        push_case(script, command);
    }
    script.push(TAIL);
}

/// Puts the case of a command behind the script.
fn push_case(script: &mut Script<'_>, command: &Command<'_>) {
    let name = command.get_name();
    script.push_all(&[
        "                ",
        name,
        ")\n                    _arguments",
    ]);
    push_arguments(script, command);
    script.push("\n                    ;;\n");
}

/// Puts the names of the commands, each with what it does, behind the script.
fn push_names(script: &mut Script<'_>, program: &Command<'_>) {
    for command in program.get_subcommands() {
        script.push_all(&["                '", command.get_name(), ":"]);
        script.push_quoted(command.get_about().unwrap_or(""), SPECIAL);
        script.push("'\n");
    }
}

/// Puts the arguments of a command behind the script.
fn push_arguments(script: &mut Script<'_>, command: &Command<'_>) {
    for argument in command.get_arguments() {
        if argument.is_positional() {
            push_positional(script, argument);
        } else {
            push_option(script, argument);
        }
    }
}

/// Puts an argument that has no name on the command line behind the script.
fn push_positional(script: &mut Script<'_>, argument: &Arg<'_>) {
    script.push(if has_several(argument) { " '*" } else { " '" });
    push_values(script, argument);
    script.push("'");
}

/// Puts an option behind the script, once for each of its names, of which only one is given.
fn push_option(script: &mut Script<'_>, argument: &Arg<'_>) {
    if let Some(short) = argument.get_short() {
        push_names_of(script, argument);
        script.push("-");
        script.push_character(short);
        push_meaning(script, argument);
    }
    if let Some(long) = argument.get_long() {
        push_names_of(script, argument);
        script.push_all(&["--", long, if has_value(argument) { "=" } else { "" }]);
        push_meaning(script, argument);
    }
}

/// Puts the names of an option behind the script, of which none is offered any more where one is given.
fn push_names_of(script: &mut Script<'_>, argument: &Arg<'_>) {
    script.push(" '(");
    if let Some(short) = argument.get_short() {
        script.push("-");
        script.push_character(short);
        script.push(" ");
    }
    if let Some(long) = argument.get_long() {
        script.push_all(&["--", long]);
    }
    script.push(")");
}

/// Puts what an option means, and what its value may be, behind the script.
fn push_meaning(script: &mut Script<'_>, argument: &Arg<'_>) {
    script.push("[");
    script.push_quoted(argument.get_help().unwrap_or(""), SPECIAL);
    script.push("]");
    if has_value(argument) {
        push_values(script, argument);
    }
    script.push("'");
}

/// Puts the name of a value and what it may be behind the script.
fn push_values(script: &mut Script<'_>, argument: &Arg<'_>) {
    script.push_all(&[":", argument.get_id(), ":"]);
    match values_of(argument, script.commands) {
        Values::Files => script.push("_files"),
        Values::Words(words) => script.push_words("(", words, ")"),
        Values::Unknown => script.push(" "),
    }
}
