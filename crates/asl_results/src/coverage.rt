//! What is told of coverage.
ghost use Rattle.std.specs.Prelude.{◌≡◌, ◌++◌, OnOk, string_bytes};
ghost use Rattle.asl_results.specs.Line.{coverage_text, lacking_line};

use crate::escaping::InLine;
use asl_tree::OutOfMemory;

/// Puts a line for each thing that isn't covered behind the text, or the one that says that there is none.
pub(crate) fn push_coverage(text: &mut String, lacking: &[String]) -> Result<(), OutOfMemory>
    ensures { OnOk result
        (string_bytes text.new ≡ string_bytes text.old ++ coverage_text lacking.now) }
{
    if lacking.is_empty() {
        text.push_str("everything is covered\n")?;
    }
    for line in lacking {
        push_lacking(text, line)?;
    }
    Ok(())
}

/// Puts the line of a thing that isn't covered behind the text.
fn push_lacking(text: &mut String, line: &String) -> Result<(), OutOfMemory>
    ensures { OnOk result
        (string_bytes text.new ≡ string_bytes text.old ++ lacking_line line.now) }
{
    write!(text, "not covered: {}\n", InLine(line))?;
    Ok(())
}
