//! Commands for a workflow of GitHub.
ghost use Rattle.std.specs.Prelude.{◌≡◌, ◌++◌, IfOk, OnOk, option_map, string_bytes};
ghost use Rattle.asl_diagnostics.specs.Github.{escape_of, escaped, github_line, github_lines};

use crate::Diagnostic;
use crate::statement::statement;
use crate::text::push_number;
use asl_tree::OutOfMemory;
use std::alloc::Global;

/// Where in a command a text stands.
#[derive(Clone, Copy)]
enum Part {
    Message,
    Property,
}

/// A line for each diagnostic, ended by a line break: `::error file=FILE,line=LINE,col=COLUMN,title=TITLE::STATEMENT`, or
/// `::warning`, by which a workflow's log annotates the file. The title is what the rule says in short, the statement
/// what stands in the lines for people behind the severity.
pub fn github_lines(alloc: Global, diagnostics: &[Diagnostic]) -> Result<String, OutOfMemory>
    ensures { IfOk result (λ text. string_bytes text ≡ github_lines diagnostics.now) }
{
    let mut text = String::new(alloc);
    for diagnostic in diagnostics {
        let line = github_line(alloc, diagnostic)?;
        text.push_str(&line)?;
    }
    Ok(text)
}

/// The command of a diagnostic.
fn github_line(alloc: Global, diagnostic: &Diagnostic) -> Result<String, OutOfMemory>
    ensures { IfOk result (λ text. string_bytes text ≡ github_line diagnostic.now) }
{
    let mut text = String::from_str(alloc, "::")?;
    text.push_str(diagnostic.severity.name())?;
    text.push_str(" file=")?;
    push_escaped(&mut text, Part::Property, &diagnostic.file)?;
    push_number(alloc, &mut text, ",line=", diagnostic.place.line)?;
    push_number(alloc, &mut text, ",col=", diagnostic.place.column)?;
    text.push_str(",title=")?;
    push_escaped(&mut text, Part::Property, diagnostic.rule.short)?;
    text.push_str("::")?;
    let statement = statement(alloc, diagnostic)?;
    push_escaped(&mut text, Part::Message, &statement)?;
    text.push_str("\n")?;
    Ok(text)
}

/// Puts a text behind it, with the escapes that it needs there.
fn push_escaped(text: &mut String, part: Part, plain: &str) -> Result<(), OutOfMemory>
    ensures { OnOk result
        (string_bytes text.new ≡ string_bytes text.old ++ escaped part plain.now) }
{
    for c in plain.chars() {
        match escape_of(part, c) {
            Some(escape) => text.push_str(escape)?,
            None => text.push(c)?,
        }
    }
    Ok(())
}

/// The escape of a character, where it needs one.
fn escape_of(part: Part, c: char) -> Option<&'static str>
    ensures { option_map (λ escape. escape.now) result ≡ escape_of part c }
{
    match (part, c) {
        (_, '%') => Some("%25"),
        (_, '\r') => Some("%0D"),
        (_, '\n') => Some("%0A"),
        (Part::Property, ':') => Some("%3A"),
        (Part::Property, ',') => Some("%2C"),
        _ => None,
    }
}
