//! Pictures: what is drawn, whatever the format.

use crate::label::Label;
use crate::page::Page;
use crate::scopes::ScopeName;
use crate::{dot, mermaid};
use asl_tree::OutOfMemory;
use std::alloc::Global;

/// In which language a picture is written.
#[derive(Clone, Copy, Debug, Drop, PartialEq, Eq)]
pub enum Format {
    /// A flowchart of Mermaid.
    Mermaid,
    /// A directed graph of Graphviz.
    Dot,
}

/// Where a line begins or ends.
#[derive(Clone, Copy)]
pub(crate) enum Point {
    /// The state of that number.
    State(usize),
    /// The cluster of the state of that number.
    Cluster(usize),
    /// The Start of a scope.
    Start(ScopeName),
    /// The End of a scope.
    End(ScopeName),
}

/// The form in which a point is drawn.
#[derive(Clone, Copy)]
pub(crate) enum Form {
    Box,
    Rhombus,
    Rounded,
    Circle,
    DoubleCircle,
}

/// How a state is marked.
#[derive(Clone, Copy)]
pub(crate) enum Look {
    Plain,
    /// A rule is broken at it.
    Finding,
    /// No data comes to it.
    Unreached,
}

/// A cluster.
#[derive(Clone, Copy)]
pub(crate) enum Cluster {
    /// Of the state of that number.
    State(usize),
    /// Of a branch of the state of that number; branches are counted from 0.
    Branch(usize, usize),
}

/// A line from one point to another.
#[derive(Clone, Copy)]
pub(crate) struct Arrow {
    pub(crate) from: Point,
    pub(crate) to: Point,
    pub(crate) is_dashed: bool,
}

/// A picture that is being drawn.
#[derive(Drop)]
pub(crate) struct Picture {
    alloc: Global,
    format: Format,
    page: Page,
}

impl Picture {
    /// An empty picture. `has_marks` is whether states may be marked.
    pub(crate) fn new(
        alloc: Global,
        format: Format,
        has_marks: bool,
    ) -> Result<Picture, OutOfMemory> {
        let page = match format {
            Format::Mermaid => mermaid::begun(alloc, has_marks)?,
            Format::Dot => dot::begun(alloc, has_marks)?,
        };
        Ok(Picture {
            alloc,
            format,
            page,
        })
    }

    /// Draws a point with a label.
    pub(crate) fn draw_point(
        &mut self,
        point: Point,
        form: Form,
        look: Look,
        label: &Label,
    ) -> Result<(), OutOfMemory> {
        let line = match self.format {
            Format::Mermaid => mermaid::point_line(self.alloc, point, form, look, label)?,
            Format::Dot => dot::point_line(self.alloc, point, form, look, label)?,
        };
        self.page.push_line(&line)
    }

    /// Begins a cluster with that title.
    pub(crate) fn open(
        &mut self,
        cluster: Cluster,
        look: Look,
        title: &Label,
    ) -> Result<(), OutOfMemory> {
        match self.format {
            Format::Mermaid => mermaid::open(self.alloc, &mut self.page, cluster, title),
            Format::Dot => dot::open(self.alloc, &mut self.page, cluster, look, title),
        }
    }

    /// Ends the cluster that was begun last of those that have no end.
    pub(crate) fn close(&mut self, cluster: Cluster, look: Look) -> Result<(), OutOfMemory> {
        match self.format {
            Format::Mermaid => mermaid::close(self.alloc, &mut self.page, cluster, look),
            Format::Dot => self.page.close("}"),
        }
    }

    /// Places a scope between the two ends of the cluster of the state of that number. `last` is the scope's End, or
    /// its Start where it has no End.
    pub(crate) fn place(
        &mut self,
        state: usize,
        first: Point,
        last: Point,
    ) -> Result<(), OutOfMemory> {
        match self.format {
            Format::Mermaid => Ok(()),
            Format::Dot => dot::place(self.alloc, &mut self.page, state, first, last),
        }
    }

    /// Draws a line with a label, which may be empty.
    pub(crate) fn draw_arrow(&mut self, arrow: Arrow, label: &Label) -> Result<(), OutOfMemory> {
        let line = match self.format {
            Format::Mermaid => mermaid::arrow_line(self.alloc, arrow, label)?,
            Format::Dot => dot::arrow_line(self.alloc, arrow, label)?,
        };
        self.page.push_line(&line)
    }

    /// The text of the picture.
    pub(crate) fn into_text(self) -> Result<String, OutOfMemory> {
        let mut page = self.page;
        match self.format {
            Format::Mermaid => {}
            Format::Dot => page.close("}")?,
        }
        Ok(page.into_text())
    }
}

/// The identifier of a scope's point: the word, and for a nested scope the numbers of its state and of its branch,
/// which is counted from 1.
pub(crate) fn scope_id(alloc: Global, word: &str, scope: ScopeName) -> Result<String, OutOfMemory> {
    match scope {
        ScopeName::Machine => Ok(String::from_str(alloc, word)?),
        ScopeName::Inside { state, branch } => {
            let branch = branch.saturating_add(1);
            Ok(format!(in alloc; "{word}{state}_{branch}")?)
        }
    }
}

/// The identifier of a cluster.
pub(crate) fn cluster_id(alloc: Global, cluster: Cluster) -> Result<String, OutOfMemory> {
    match cluster {
        Cluster::State(state) => Ok(format!(in alloc; "s{state}")?),
        Cluster::Branch(state, branch) => {
            let branch = branch.saturating_add(1);
            Ok(format!(in alloc; "s{state}_{branch}")?)
        }
    }
}
