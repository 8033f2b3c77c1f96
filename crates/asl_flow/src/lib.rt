//! Shapes through a state: what follows of the shape of a state's input for what its templates give, what it works on and
//! what it puts out (States Language, "Input and Output Processing", "Payload Template"). What a path finds in a shape, and
//! what a rule lets through, are crates of their own.
//!
//! [`template_shape`] gives the shape of a template's values, of which [`literal_shape`] is a part, and [`leave`] that of a
//! state's output. [`template_shape_at`], [`literal_shape_at`] and [`leave_at`] give the same by the numbers of a table of
//! shapes.
//!
//! By number alone stand the other ways through a state: [`effective_at`] and [`item_input_at`] lead into it and into a Map's
//! children, and [`output_at`] out of it, each with all [`Doubt`]s where the shape may not come through; [`elements_of`] and
//! [`element_at`] tell of an array's elements, [`outputs_at`] and [`list_at`] make the lists of children's outputs, and
//! [`error_output_at`] is what a catcher places.
#![tactic(auto)]

mod calls;
mod doubts;
mod elements;
mod entering;
mod errors;
mod leaving;
mod literals;
mod references;
mod steps;
mod templates;

pub use doubts::{Cause, Doubt, Flow};
pub use elements::{Elements, element_at, elements_of, list_at, outputs_at};
pub use entering::{effective_at, item_input_at};
pub use errors::error_output_at;
pub use leaving::{FlowFault, leave, leave_at, output_at};
pub use literals::{literal_shape, literal_shape_at};
pub use templates::{TemplateShapeRefusal, template_shape, template_shape_at};
