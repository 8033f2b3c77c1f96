//! Reading the paths in templates.
ghost use Rattle.std.specs.Prelude.{◌≡◌, [], Err, IfOk, IfErr, OnOk};
ghost use Rattle.asl_intrinsic.specs.View.{argument_view};
ghost use Rattle.asl_model.specs.Intrinsic.{PathArgument, Reference};
ghost use Rattle.asl_model.specs.Template.{FromPath};
ghost use Rattle.asl_template.specs.Field.{path_template, path_faults};
ghost use Rattle.asl_template.specs.Refusal.{Tells};
ghost use Rattle.asl_template.specs.View.{view};
ghost use Rattle.asl_template.specs.declared.refusal.SpellingRefusal.TheVariants.{NotWhole};

use crate::{SpellingRefusal, Template};
use asl_intrinsic::{Arg, parse_reference};
use std::alloc::Global;

/// The path that the text spells: into the input, or, where it begins with `$$`, a context path.
pub(crate) fn read_path(alloc: Global, text: &str, item: bool) -> Result<Template, SpellingRefusal>
    ensures right { OnOk result (path_faults item text.now ≡ []) }
    ensures template { IfOk result (λ t. view t ≡ path_template item text.now) }
    ensures of_text { ¬ (result ≡ Err NotWhole) }
    ensures refused { IfErr result (λ e. Tells e (path_faults item text.now)) }
{
    match parse_reference(alloc, text, item)? {
        Some(path) => Ok(path_in_template(path)),
        None => {
            if text.starts_with("$$") {
                Err(SpellingRefusal::LeftOutContext)
            } else {
                Err(SpellingRefusal::BadPath)
            }
        }
    }
}

/// The path of a call as one of a template.
fn path_in_template(path: Arg) -> Template
    requires { (r : Reference) × (argument_view path ≡ PathArgument r) }
    ensures { (r : Reference) → argument_view path ≡ PathArgument r → view result ≡ FromPath r }
{
    match path {
        Arg::Path(path) => Template::Path(path),
        Arg::ItemIndex => Template::ItemIndex,
        Arg::ItemValue(path) => Template::ItemValue(path),
        Arg::Null | Arg::Bool(_) | Arg::Int(_) | Arg::Text(_) | Arg::Call(_) => unreachable!(),
    }
}
