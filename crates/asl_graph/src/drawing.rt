//! Drawing a machine scope by scope.

use crate::known::Known;
use crate::label::Label;
use crate::lines::ends_scope;
use crate::picture::{Arrow, Cluster, Form, Format, Look, Picture, Point};
use crate::scopes::{ScopeName, Scopes};
use asl_machine_table::Machine;
use asl_states::{Kind, Target};
use asl_tree::OutOfMemory;
use asl_ways::Exit;
use std::alloc::Global;

/// A machine, its scopes, and what is known of it, if it has declared shapes.
#[derive(Drop)]
pub(crate) struct Drawer<'m> {
    pub(crate) alloc: Global,
    pub(crate) machine: &'m Machine,
    pub(crate) scopes: Scopes,
    pub(crate) known: Option<&'m Known>,
}

/// A scope that is drawn: its start state, and the shape of what flows there where it is known.
#[derive(Drop)]
struct Entered {
    scope: ScopeName,
    start: usize,
    shape: Option<String>,
}

impl Drawer<'_> {
    /// The picture of the machine.
    pub(crate) fn picture(&self, format: Format) -> Result<String, OutOfMemory> {
        let mut picture = Picture::new(self.alloc, format, self.known.is_some())?;
        if let Some(scope) = self.machine.scope_of(0) {
            let entered = Entered {
                scope: ScopeName::Machine,
                start: scope.start,
                shape: self.input_shape()?,
            };
            self.draw_scope(&mut picture, &entered, self.machine.states())?;
        }
        picture.into_text()
    }

    /// Draws a scope: its states, and then the lines between them. The answer is its last point. There are at most so
    /// many levels of scopes, which are fewer than the states.
    #[cycle(scope)]
    fn draw_scope(
        &self,
        picture: &mut Picture,
        entered: &Entered,
        levels: usize,
    ) -> Result<Point, OutOfMemory> {
        self.draw_start(picture, entered.scope)?;
        for number in self.scopes.states_of(entered.scope) {
            self.draw_state(picture, *number, levels)?;
        }
        let last = self.draw_end(picture, entered.scope)?;
        self.draw_lines_in(picture, entered)?;
        Ok(last)
    }

    /// Draws the lines of a scope: the one to its start state, and those that lead away from its states.
    fn draw_lines_in(&self, picture: &mut Picture, entered: &Entered) -> Result<(), OutOfMemory> {
        self.draw_entry(picture, entered)?;
        for number in self.scopes.states_of(entered.scope) {
            self.draw_lines(picture, entered.scope, *number)?;
        }
        Ok(())
    }

    /// Draws the Start of a scope.
    fn draw_start(&self, picture: &mut Picture, scope: ScopeName) -> Result<(), OutOfMemory> {
        let label = Label::of(self.alloc, "Start")?;
        picture.draw_point(Point::Start(scope), Form::Circle, Look::Plain, &label)
    }

    /// Draws the End of a scope, if a state ends it. The answer is that point, or else the scope's Start.
    fn draw_end(&self, picture: &mut Picture, scope: ScopeName) -> Result<Point, OutOfMemory> {
        let states = self.scopes.states_of(scope);
        if !states.iter().any(|number| self.is_last(*number)) {
            return Ok(Point::Start(scope));
        }
        let end = Point::End(scope);
        let label = Label::of(self.alloc, "End")?;
        picture.draw_point(end, Form::DoubleCircle, Look::Plain, &label)?;
        Ok(end)
    }

    /// Whether the scope of the state of that number ends with it by `End`.
    fn is_last(&self, number: usize) -> bool {
        match self.machine.state(number) {
            Some(state) => ends_scope(state),
            None => false,
        }
    }

    /// Draws the line to the start state of a scope.
    fn draw_entry(&self, picture: &mut Picture, entered: &Entered) -> Result<(), OutOfMemory> {
        let arrow = Arrow {
            from: Point::Start(entered.scope),
            to: self.point_of(entered.start),
            is_dashed: false,
        };
        let mut label = Label::new(self.alloc);
        if let Some(shape) = &entered.shape {
            label.push(shape)?;
        }
        picture.draw_arrow(arrow, &label)
    }

    /// Draws the state of that number, and what is in it.
    #[cycle(scope)]
    fn draw_state(
        &self,
        picture: &mut Picture,
        number: usize,
        levels: usize,
    ) -> Result<(), OutOfMemory> {
        let (Some(name), Some(state)) = (self.machine.name(number), self.machine.state(number))
        else {
            return Ok(());
        };
        self.begin_state(picture, number, name, &state.kind)?;
        match &state.kind {
            Kind::Parallel { branches } => self.draw_branches(picture, number, branches, levels),
            Kind::Map { processor, .. } => self.draw_items(picture, number, processor, levels),
            _ => Ok(()),
        }
    }

    /// Draws the point of a state, or begins its cluster.
    fn begin_state(
        &self,
        picture: &mut Picture,
        number: usize,
        name: &str,
        kind: &Kind,
    ) -> Result<(), OutOfMemory> {
        match kind {
            Kind::Parallel { .. } => self.open(picture, number, name, "Parallel"),
            Kind::Map { .. } => self.open(picture, number, name, "Map, each item"),
            _ => {
                let (form, word) = form_of(kind);
                let mut label = Label::of(self.alloc, name)?;
                label.push(word)?;
                picture.draw_point(Point::State(number), form, self.look_of(number), &label)
            }
        }
    }

    /// Draws the branches of a Parallel, and ends its cluster.
    #[cycle(scope)]
    fn draw_branches(
        &self,
        picture: &mut Picture,
        state: usize,
        branches: &[Target],
        levels: usize,
    ) -> Result<(), OutOfMemory> {
        for (branch, start) in branches.iter().enumerate() {
            self.open_branch(picture, state, branch)?;
            let exit = Exit::Branch(branch);
            let last = self.draw_inside(picture, state, exit, start.number, levels)?;
            close_branch(picture, state, branch, last)?;
        }
        self.close(picture, state)
    }

    /// Draws the processor of a Map, and ends its cluster.
    #[cycle(scope)]
    fn draw_items(
        &self,
        picture: &mut Picture,
        state: usize,
        processor: &Target,
        levels: usize,
    ) -> Result<(), OutOfMemory> {
        let last = self.draw_inside(picture, state, Exit::Items, processor.number, levels)?;
        let scope = ScopeName::Inside { state, branch: 0 };
        picture.place(state, Point::Start(scope), last)?;
        self.close(picture, state)
    }

    /// Draws the scope of a state that an exit leads into. The answer is its last point.
    #[cycle(scope)]
    fn draw_inside(
        &self,
        picture: &mut Picture,
        state: usize,
        exit: Exit,
        start: usize,
        levels: usize,
    ) -> Result<Point, OutOfMemory> {
        let branch = match exit {
            Exit::Branch(branch) => branch,
            _ => 0,
        };
        let scope = ScopeName::Inside { state, branch };
        let Some(levels) = levels.checked_sub(1) else {
            return Ok(Point::Start(scope));
        };
        let entered = Entered {
            scope,
            start,
            shape: self.shape_along(state, exit)?,
        };
        self.draw_scope(picture, &entered, levels)
    }

    /// Begins the cluster of a branch of a Parallel.
    fn open_branch(
        &self,
        picture: &mut Picture,
        state: usize,
        branch: usize,
    ) -> Result<(), OutOfMemory> {
        let place = branch.saturating_add(1);
        let title = format!(in self.alloc; "branch {place}")?;
        let title = Label::on_one_line(self.alloc, &title)?;
        picture.open(Cluster::Branch(state, branch), Look::Plain, &title)
    }

    /// Begins the cluster of the state of that number, with its name and what it is.
    fn open(
        &self,
        picture: &mut Picture,
        number: usize,
        name: &str,
        what: &str,
    ) -> Result<(), OutOfMemory> {
        let title = Label::title(self.alloc, name, what)?;
        picture.open(Cluster::State(number), self.look_of(number), &title)
    }

    /// Ends it.
    fn close(&self, picture: &mut Picture, number: usize) -> Result<(), OutOfMemory> {
        picture.close(Cluster::State(number), self.look_of(number))
    }

    /// Where lines to the state of that number end, and where those away from it begin.
    pub(crate) fn point_of(&self, number: usize) -> Point {
        match self.machine.state(number) {
            Some(state) if is_cluster(&state.kind) => Point::Cluster(number),
            _ => Point::State(number),
        }
    }

    /// How the state of that number looks.
    fn look_of(&self, number: usize) -> Look {
        match self.known {
            Some(known) => known.look_of(number),
            None => Look::Plain,
        }
    }

    /// The shape of the machine's input, where it is known.
    fn input_shape(&self) -> Result<Option<String>, OutOfMemory> {
        match self.known {
            Some(known) => known
                .facts
                .flows
                .input_text(self.alloc, &known.certificate.shapes),
            None => Ok(None),
        }
    }

    /// The shape of what flows from the state of that number through an exit, where it is known.
    pub(crate) fn shape_along(
        &self,
        number: usize,
        exit: Exit,
    ) -> Result<Option<String>, OutOfMemory> {
        match self.known {
            Some(known) => {
                let shapes = &known.certificate.shapes;
                known
                    .facts
                    .flows
                    .text_along(self.alloc, shapes, number, exit)
            }
            None => Ok(None),
        }
    }
}

/// Ends the cluster of a branch of a Parallel, and places its scope, which has that last point.
fn close_branch(
    picture: &mut Picture,
    state: usize,
    branch: usize,
    last: Point,
) -> Result<(), OutOfMemory> {
    picture.close(Cluster::Branch(state, branch), Look::Plain)?;
    let scope = ScopeName::Inside { state, branch };
    picture.place(state, Point::Start(scope), last)
}

/// Whether a state of that type is drawn as a cluster.
fn is_cluster(kind: &Kind) -> bool {
    matches!(kind, Kind::Parallel { .. } | Kind::Map { .. })
}

/// The form of a state of that type, and the type's name.
fn form_of(kind: &Kind) -> (Form, &'static str) {
    match kind {
        Kind::Pass { .. } => (Form::Box, "Pass"),
        Kind::Task { .. } => (Form::Box, "Task"),
        Kind::Choice { .. } => (Form::Rhombus, "Choice"),
        Kind::Wait { .. } => (Form::Box, "Wait"),
        Kind::Succeed => (Form::Rounded, "Succeed"),
        Kind::Fail { .. } => (Form::Rounded, "Fail"),
        Kind::Parallel { .. } => (Form::Box, "Parallel"),
        Kind::Map { .. } => (Form::Box, "Map"),
    }
}
