//! The lines that lead away from states.

use crate::drawing::Drawer;
use crate::label::Label;
use crate::picture::{Arrow, Picture, Point};
use crate::rules::test_words;
use crate::scopes::ScopeName;
use crate::words::ShortText;
use asl_states::{Catcher, ChoiceRule, Kind, State, Target};
use asl_tree::OutOfMemory;
use asl_ways::Exit;

/// How many characters a line tells of a rule or of the names of errors.
const MOST: usize = 60;

impl Drawer<'_> {
    /// Draws the lines that lead away from the state of that number, which stands in that scope: what its type leads
    /// to, or `Next` or the scope's End, and then what its catchers lead to.
    pub(crate) fn draw_lines(
        &self,
        picture: &mut Picture,
        scope: ScopeName,
        number: usize,
    ) -> Result<(), OutOfMemory> {
        let Some(state) = self.machine.state(number) else {
            return Ok(());
        };
        self.draw_choices(picture, number, state)?;
        if let Some(next) = &state.settings.next {
            self.draw_line(picture, number, Exit::Next, next, None)?;
        }
        if ends_scope(state) {
            let arrow = Arrow {
                from: self.point_of(number),
                to: Point::End(scope),
                is_dashed: false,
            };
            picture.draw_arrow(arrow, &Label::new(self.alloc))?;
        }
        self.draw_catchers(picture, number, &state.settings.catchers)
    }

    /// Draws the lines of a Choice.
    fn draw_choices(
        &self,
        picture: &mut Picture,
        number: usize,
        state: &State,
    ) -> Result<(), OutOfMemory> {
        let Kind::Choice { choices, default } = &state.kind else {
            return Ok(());
        };
        self.draw_rules(picture, number, choices)?;
        match default {
            Some(next) => self.draw_line(picture, number, Exit::Default, next, Some("Default")),
            None => Ok(()),
        }
    }

    /// Draws a line for each rule.
    fn draw_rules(
        &self,
        picture: &mut Picture,
        number: usize,
        choices: &[ChoiceRule],
    ) -> Result<(), OutOfMemory> {
        for (place, rule) in choices.iter().enumerate() {
            let words = test_words(self.alloc, &rule.test, MOST)?;
            self.draw_line(picture, number, Exit::Rule(place), &rule.next, Some(&words))?;
        }
        Ok(())
    }

    /// Draws a line for each catcher.
    fn draw_catchers(
        &self,
        picture: &mut Picture,
        number: usize,
        catchers: &[Catcher],
    ) -> Result<(), OutOfMemory> {
        for (place, catcher) in catchers.iter().enumerate() {
            let words = self.error_words(&catcher.error_equals)?;
            let exit = Exit::Catcher(place);
            self.draw_line(picture, number, exit, &catcher.next, Some(&words))?;
        }
        Ok(())
    }

    /// The names of errors in a row.
    fn error_words(&self, names: &[String]) -> Result<String, OutOfMemory> {
        let mut words = ShortText::new(self.alloc, MOST);
        for (place, name) in names.iter().enumerate() {
            if place > 0 {
                words.push_str(", ")?;
            }
            words.push_str(name)?;
        }
        Ok(words.into_text())
    }

    /// Draws a line from the state of that number through an exit to the state that is meant, with those words, and
    /// with the shape of what flows there where it is known.
    fn draw_line(
        &self,
        picture: &mut Picture,
        number: usize,
        exit: Exit,
        next: &Target,
        words: Option<&str>,
    ) -> Result<(), OutOfMemory> {
        let arrow = Arrow {
            from: self.point_of(number),
            to: self.point_of(next.number),
            is_dashed: matches!(exit, Exit::Catcher(_)),
        };
        let mut label = Label::new(self.alloc);
        if let Some(words) = words {
            label.push(words)?;
        }
        if let Some(shape) = self.shape_along(number, exit)? {
            label.push(&shape)?;
        }
        picture.draw_arrow(arrow, &label)
    }
}

/// Whether the scope of a state ends with it by `End`.
pub(crate) fn ends_scope(state: &State) -> bool {
    match &state.kind {
        Kind::Choice { .. } | Kind::Succeed | Kind::Fail { .. } => false,
        Kind::Pass { .. }
        | Kind::Task { .. }
        | Kind::Wait { .. }
        | Kind::Parallel { .. }
        | Kind::Map { .. } => state.settings.next.is_none(),
    }
}
