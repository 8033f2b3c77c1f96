//! Lines of Mermaid's flowcharts.

use crate::label::Label;
use crate::page::Page;
use crate::picture::{Arrow, Cluster, Form, Look, Point, cluster_id, scope_id};
use asl_tree::OutOfMemory;
use std::alloc::Global;

/// What is in front of all else where states may be marked.
const MARKS: [&str; 3] = [
    "%% Red: a rule is broken at the state. Grey: no data comes to the state.",
    "classDef finding fill:#ffe3e0,stroke:#cf222e,color:#82071e",
    "classDef unreached fill:#eceff2,stroke:#8c959f,color:#57606a",
];

/// A page that begins a flowchart.
pub(crate) fn begun(alloc: Global, has_marks: bool) -> Result<Page, OutOfMemory> {
    let mut page = Page::new(alloc, "flowchart TD")?;
    if has_marks {
        for line in MARKS {
            page.push_line(line)?;
        }
    }
    Ok(page)
}

/// The identifier of a point.
fn id_of(alloc: Global, point: Point) -> Result<String, OutOfMemory> {
    match point {
        Point::State(number) | Point::Cluster(number) => Ok(format!(in alloc; "s{number}")?),
        Point::Start(scope) => scope_id(alloc, "start", scope),
        Point::End(scope) => scope_id(alloc, "stop", scope),
    }
}

/// The line of a point.
pub(crate) fn point_line(
    alloc: Global,
    point: Point,
    form: Form,
    look: Look,
    label: &Label,
) -> Result<String, OutOfMemory> {
    let id = id_of(alloc, point)?;
    let (opening, closing) = brackets_of(form);
    let label = label_text(alloc, label)?;
    let class = match class_of(look) {
        Some(class) => format!(in alloc; ":::{class}")?,
        None => String::new(alloc),
    };
    Ok(format!(in alloc; "{id}{opening}\"{label}\"{closing}{class}")?)
}

/// The brackets that mean a form.
fn brackets_of(form: Form) -> (&'static str, &'static str) {
    match form {
        Form::Box => ("[", "]"),
        Form::Rhombus => ("{", "}"),
        Form::Rounded => ("([", "])"),
        Form::Circle => ("((", "))"),
        Form::DoubleCircle => ("(((", ")))"),
    }
}

/// The class of marked states.
fn class_of(look: Look) -> Option<&'static str> {
    match look {
        Look::Plain => None,
        Look::Finding => Some("finding"),
        Look::Unreached => Some("unreached"),
    }
}

/// Begins a cluster. What is in it would else be laid out across.
pub(crate) fn open(
    alloc: Global,
    page: &mut Page,
    cluster: Cluster,
    title: &Label,
) -> Result<(), OutOfMemory> {
    let id = cluster_id(alloc, cluster)?;
    let title = label_text(alloc, title)?;
    page.open(&format!(in alloc; "subgraph {id}[\"{title}\"]")?)?;
    page.push_line("direction TB")
}

/// Ends a cluster.
pub(crate) fn close(
    alloc: Global,
    page: &mut Page,
    cluster: Cluster,
    look: Look,
) -> Result<(), OutOfMemory> {
    page.close("end")?;
    match class_of(look) {
        Some(class) => {
            let id = cluster_id(alloc, cluster)?;
            page.push_line(&format!(in alloc; "class {id} {class}")?)
        }
        None => Ok(()),
    }
}

/// The line of an arrow.
pub(crate) fn arrow_line(
    alloc: Global,
    arrow: Arrow,
    label: &Label,
) -> Result<String, OutOfMemory> {
    let from = id_of(alloc, arrow.from)?;
    let to = id_of(alloc, arrow.to)?;
    let sign = if arrow.is_dashed { "-.->" } else { "-->" };
    let label = text_on_arrow(alloc, label)?;
    Ok(format!(in alloc; "{from} {sign}{label} {to}")?)
}

/// The text of a label as it stands behind the sign of an arrow; nothing where the label is empty, since Mermaid refuses an
/// empty text there.
fn text_on_arrow(alloc: Global, label: &Label) -> Result<String, OutOfMemory> {
    let label = label_text(alloc, label)?;
    if label.is_empty() {
        Ok(label)
    } else {
        Ok(format!(in alloc; "|\"{label}\"|")?)
    }
}

/// The text of a label between quotes.
fn label_text(alloc: Global, label: &Label) -> Result<String, OutOfMemory> {
    let mut text = String::new(alloc);
    for (number, line) in label.lines().iter().enumerate() {
        if number > 0 {
            text.push_str("<br/>")?;
        }
        push_escaped(alloc, &mut text, line)?;
    }
    Ok(text)
}

/// Puts a line behind a text, with entities for what would mean something there.
fn push_escaped(alloc: Global, text: &mut String, line: &str) -> Result<(), OutOfMemory> {
    let mut before = None;
    for (at, character) in line.char_indices() {
        let behind = line.as_bytes().get(at.saturating_add(1)).copied();
        if is_plain(before, character, behind) {
            text.push(character)?;
        } else {
            text.push_str(&entity(alloc, character)?)?;
        }
        before = Some(character);
    }
    Ok(())
}

/// The entity that stands for a character.
fn entity(alloc: Global, character: char) -> Result<String, OutOfMemory> {
    match entity_name(character) {
        Some(name) => Ok(format!(in alloc; "#{name};")?),
        None => {
            let code = u32::from(character);
            Ok(format!(in alloc; "#{code};")?)
        }
    }
}

/// The name of the entity that stands for a character, where it has one.
fn entity_name(character: char) -> Option<&'static str> {
    match character {
        '"' => Some("quot"),
        '<' => Some("lt"),
        '>' => Some("gt"),
        '&' => Some("amp"),
        _ => None,
    }
}

/// Whether a character in a line stands for itself, by the one before it and the byte behind it.
///
/// A label is read several times: for quotes and entities, for directives (`%%{`), for icons (`fa:fa-car`), for
/// formulas (`$$`), for colours behind the word `style` and a colon, as Markdown and as HTML. Markdown has lists (`1.`,
/// `-`, `+`), links (`[`, `www.`, `@`, `https:`), emphasis (`*`, `_`, `~`) and lines of `=` below headings.
fn is_plain(before: Option<char>, character: char, behind: Option<u8>) -> bool {
    match character {
        ' ' => before.is_some_and(|before| before != ' '),
        ',' | '(' | '?' | '!' | '\'' | '/' | '{' | '}' | '|' => true,
        '=' => before.is_some(),
        '.' | ')' => before.is_some_and(|before| !before.is_ascii_digit() && !is_w(before)),
        '-' | '_' => before.is_some_and(|before| before.is_ascii_alphanumeric()),
        '$' => before != Some('$'),
        ':' => behind == Some(b' '),
        _ => character.is_ascii_alphanumeric() || !character.is_ascii(),
    }
}

/// Whether the character is a w.
fn is_w(character: char) -> bool {
    matches!(character, 'w' | 'W')
}
