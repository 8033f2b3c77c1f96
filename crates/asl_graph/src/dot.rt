//! Lines of Graphviz's graphs.

use crate::label::Label;
use crate::page::Page;
use crate::picture::{Arrow, Cluster, Form, Look, Point, cluster_id, scope_id};
use asl_tree::OutOfMemory;
use std::alloc::Global;

/// What is in front of all else.
const SETTINGS: [&str; 5] = [
    "compound=true",
    "newrank=true",
    "fontname=\"Helvetica\"",
    "node [fontname=\"Helvetica\", shape=box, style=filled, fillcolor=white]",
    "edge [fontname=\"Helvetica\", fontsize=11]",
];

/// What the marks of states mean.
const MARKS: &str = "// Red: a rule is broken at the state. Grey: no data comes to the state.";

/// A page that begins a graph.
pub(crate) fn begun(alloc: Global, has_marks: bool) -> Result<Page, OutOfMemory> {
    let mut page = Page::new(alloc, "digraph {")?;
    if has_marks {
        page.push_line(MARKS)?;
    }
    for line in SETTINGS {
        page.push_line(line)?;
    }
    Ok(page)
}

/// The identifier of a point where a line begins. A line that leads away from a cluster begins at the point that is
/// drawn in it for that, below all else.
fn tail_of(alloc: Global, point: Point) -> Result<String, OutOfMemory> {
    match point {
        Point::Cluster(number) => Ok(format!(in alloc; "out{number}")?),
        _ => head_of(alloc, point),
    }
}

/// The identifier of a point where a line ends. One that leads to a cluster ends at the point that is drawn in it for
/// that, above all else.
fn head_of(alloc: Global, point: Point) -> Result<String, OutOfMemory> {
    match point {
        Point::State(number) => Ok(format!(in alloc; "s{number}")?),
        Point::Cluster(number) => Ok(format!(in alloc; "in{number}")?),
        Point::Start(scope) => scope_id(alloc, "start", scope),
        Point::End(scope) => scope_id(alloc, "stop", scope),
    }
}

/// The line of a point.
pub(crate) fn point_line(
    alloc: Global,
    point: Point,
    form: Form,
    look: Look,
    label: &Label,
) -> Result<String, OutOfMemory> {
    let id = head_of(alloc, point)?;
    let label = label_text(alloc, label)?;
    let form = form_words(form);
    let colours = colours_of(look);
    Ok(format!(in alloc; "{id} [label=\"{label}\"{form}{colours}]")?)
}

/// The attributes of a form.
fn form_words(form: Form) -> &'static str {
    match form {
        Form::Box => "",
        Form::Rhombus => ", shape=diamond",
        Form::Rounded => ", style=\"rounded,filled\"",
        Form::Circle => ", shape=circle",
        Form::DoubleCircle => ", shape=doublecircle",
    }
}

/// The attributes of the colours of a state.
fn colours_of(look: Look) -> &'static str {
    match look {
        Look::Plain => "",
        Look::Finding => ", fillcolor=\"#ffe3e0\", color=\"#cf222e\", fontcolor=\"#82071e\"",
        Look::Unreached => ", fillcolor=\"#eceff2\", color=\"#8c959f\", fontcolor=\"#57606a\"",
    }
}

/// Begins a cluster.
pub(crate) fn open(
    alloc: Global,
    page: &mut Page,
    cluster: Cluster,
    look: Look,
    title: &Label,
) -> Result<(), OutOfMemory> {
    page.open(&subgraph_line(alloc, cluster)?)?;
    page.push_line(&title_line(alloc, look, title)?)?;
    match cluster {
        Cluster::State(state) => push_points(alloc, page, state),
        Cluster::Branch(_, _) => Ok(()),
    }
}

/// The line that begins a cluster.
fn subgraph_line(alloc: Global, cluster: Cluster) -> Result<String, OutOfMemory> {
    let id = cluster_id(alloc, cluster)?;
    Ok(format!(in alloc; "subgraph cluster_{id} {{")?)
}

/// The line of the title and the colours of a cluster.
fn title_line(alloc: Global, look: Look, title: &Label) -> Result<String, OutOfMemory> {
    let title = label_text(alloc, title)?;
    let style = cluster_style(look);
    Ok(format!(in alloc; "graph [label=\"{title}\"{style}]")?)
}

/// Puts down the two points of the cluster of a state: where lines to it end, and where those away from it begin.
fn push_points(alloc: Global, page: &mut Page, state: usize) -> Result<(), OutOfMemory> {
    for word in ["in", "out"] {
        page.push_line(&format!(in alloc; "{word}{state} [shape=point, style=invis]")?)?;
    }
    Ok(())
}

/// The attributes of the colours of a cluster. A cluster inside another would else have that one's.
fn cluster_style(look: Look) -> &'static str {
    match look {
        Look::Plain => {
            ", style=filled, fillcolor=\"#fbfbfb\", color=\"#8c959f\", fontcolor=black"
        }
        Look::Finding => {
            ", style=filled, fillcolor=\"#ffe3e0\", color=\"#cf222e\", fontcolor=\"#82071e\""
        }
        Look::Unreached => {
            ", style=filled, fillcolor=\"#eceff2\", color=\"#8c959f\", fontcolor=\"#57606a\""
        }
    }
}

/// Places a scope between the two points of the cluster of a state.
pub(crate) fn place(
    alloc: Global,
    page: &mut Page,
    state: usize,
    first: Point,
    last: Point,
) -> Result<(), OutOfMemory> {
    page.push_line(&entry_line(alloc, state, first)?)?;
    page.push_line(&exit_line(alloc, state, last)?)
}

/// The line from the upper point of the cluster of a state to a scope's first point, which isn't seen.
fn entry_line(alloc: Global, state: usize, first: Point) -> Result<String, OutOfMemory> {
    let first = head_of(alloc, first)?;
    Ok(format!(in alloc; "in{state} -> {first} [style=invis]")?)
}

/// The line from a scope's last point to the lower point of the cluster of a state, which isn't seen.
fn exit_line(alloc: Global, state: usize, last: Point) -> Result<String, OutOfMemory> {
    let last = tail_of(alloc, last)?;
    Ok(format!(in alloc; "{last} -> out{state} [style=invis]")?)
}

/// The line of an arrow.
pub(crate) fn arrow_line(
    alloc: Global,
    arrow: Arrow,
    label: &Label,
) -> Result<String, OutOfMemory> {
    let from = tail_of(alloc, arrow.from)?;
    let to = head_of(alloc, arrow.to)?;
    let attributes = attributes_text(alloc, arrow, label)?;
    Ok(format!(in alloc; "{from} -> {to}{attributes}")?)
}

/// The attributes of an arrow in brackets, as they stand behind it; nothing where it has none.
fn attributes_text(alloc: Global, arrow: Arrow, label: &Label) -> Result<String, OutOfMemory> {
    let mut attributes = Vec::new(alloc);
    push_attributes(alloc, &mut attributes, arrow, label)?;
    if attributes.is_empty() {
        Ok(String::new(alloc))
    } else {
        let attributes = attributes.join(alloc, ", ")?;
        Ok(format!(in alloc; " [{attributes}]")?)
    }
}

/// Puts down the attributes of an arrow.
fn push_attributes(
    alloc: Global,
    attributes: &mut Vec<String>,
    arrow: Arrow,
    label: &Label,
) -> Result<(), OutOfMemory> {
    if !label.lines().is_empty() {
        attributes.push(label_attribute(alloc, label)?)?;
    }
    if arrow.is_dashed {
        attributes.push(String::from_str(alloc, "style=dashed")?)?;
    }
    push_ends(alloc, attributes, arrow)
}

/// The attribute with a label.
fn label_attribute(alloc: Global, label: &Label) -> Result<String, OutOfMemory> {
    let label = label_text(alloc, label)?;
    Ok(format!(in alloc; "label=\"{label}\"")?)
}

/// Puts down the clusters that an arrow is to be cut off at. One from a cluster to itself stays inside.
fn push_ends(alloc: Global, attributes: &mut Vec<String>, arrow: Arrow) -> Result<(), OutOfMemory> {
    match (arrow.from, arrow.to) {
        (Point::Cluster(from), Point::Cluster(to)) if from == to => Ok(()),
        (from, to) => {
            push_end(alloc, attributes, "ltail", from)?;
            push_end(alloc, attributes, "lhead", to)
        }
    }
}

/// Puts down the cluster that an end of an arrow is to be cut off at, where it is one.
fn push_end(
    alloc: Global,
    attributes: &mut Vec<String>,
    name: &str,
    end: Point,
) -> Result<(), OutOfMemory> {
    if let Point::Cluster(state) = end {
        attributes.push(format!(in alloc; "{name}=cluster_s{state}")?)?;
    }
    Ok(())
}

/// The text of a label between quotes.
fn label_text(alloc: Global, label: &Label) -> Result<String, OutOfMemory> {
    let mut text = String::new(alloc);
    for (number, line) in label.lines().iter().enumerate() {
        if number > 0 {
            text.push_str("\\n")?;
        }
        push_escaped(&mut text, line)?;
    }
    Ok(text)
}

/// Puts a line behind a text, with escapes for what would mean something there; entities are read in labels, too.
fn push_escaped(text: &mut String, line: &str) -> Result<(), OutOfMemory> {
    for character in line.chars() {
        match character {
            '"' => text.push_str("\\\"")?,
            '\\' => text.push_str("\\\\")?,
            '&' => text.push_str("&amp;")?,
            _ => text.push(character)?,
        }
    }
    Ok(())
}
