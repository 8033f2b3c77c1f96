//! Lines on what no run has taken of a state.

ghost use Rattle.std.specs.Prelude.{◌≡◌, ◌+◌, Bool, IfOk, ℕ, length, map, option_map, option_to_list, slice_get, false, true};
ghost use Rattle.std.specs.Option.{unwrap_or};
ghost use Rattle.asl_states.specs.Machine.{kind_view, retrier_view, state_view};
ghost use Rattle.asl_cases.specs.Coverage.{Part, by_number, default_of, flags_of, flags_view, lacking_of, parts_of, retriers_in, untaken};

use crate::covered::{Covered, has_default, rules_of};
use crate::words::counted;
use asl_states::{Catcher, ChoiceRule, Retrier, State};
use asl_tree::{OutOfMemory, quoted};
use std::alloc::Global;

/// Puts down what was never taken of a state: that it was never entered, or each rule, Default, retrier and catcher.
pub(crate) fn push_lacking(
    alloc: Global,
    lines: &mut Vec<String>,
    name: &str,
    state: &State,
    covered: &Covered,
) -> Result<(), OutOfMemory>
    ensures { (taken : Part → Bool) → flags_view covered.now ≡ flags_of taken (state_view state.now)
        → IfOk result (λ _. length lines.new.items
        ≡ length lines.old.items + length (lacking_of taken (state_view state.now))) }
{
    if covered.entered {
        push_parts(alloc, lines, name, state, covered)
    } else {
        let kind = state.kind.name();
        lines.push(format!(in alloc; "{name} (a {kind}) is never entered")?)?;
        Ok(())
    }
}

/// Puts down what was never taken of a state that was entered.
fn push_parts(
    alloc: Global,
    lines: &mut Vec<String>,
    name: &str,
    state: &State,
    covered: &Covered,
) -> Result<(), OutOfMemory>
    ensures { (taken : Part → Bool) → flags_view covered.now ≡ flags_of taken (state_view state.now)
        → covered.now.entered ≡ true
        → IfOk result (λ _. length lines.new.items
        ≡ length lines.old.items + length (untaken taken (parts_of (state_view state.now)))) }
{
    let settings = &state.settings;
    push_rules(alloc, lines, name, rules_of(state), &covered.rules)?;
    push_default(alloc, lines, name, state, covered.default)?;
    push_retriers(alloc, lines, name, &settings.retriers, &covered.retriers)?;
    push_catchers(alloc, lines, name, &settings.catchers, &covered.catchers)
}

/// Puts down the rules that were never taken.
fn push_rules(
    alloc: Global,
    lines: &mut Vec<String>,
    name: &str,
    rules: &[ChoiceRule],
    taken: &[bool],
) -> Result<(), OutOfMemory>
    ensures { (t : Part → Bool) → taken.now ≡ by_number (λ i. t (Part.RuleAt i)) rules.now
        → IfOk result (λ _. length lines.new.items
        ≡ length lines.old.items + length (untaken t (by_number Part.RuleAt rules.now))) }
{
    for (number, rule) in rules.iter().enumerate() {
        if !is_set(taken, number) {
            let number = counted(alloc, number)?;
            let next = quoted(alloc, &rule.next.name)?;
            lines.push(format!(in alloc; "{name} rule {number} (to {next}) is never taken")?)?;
        }
    }
    Ok(())
}

/// Puts down the Default of a Choice, if it was never taken.
fn push_default(
    alloc: Global,
    lines: &mut Vec<String>,
    name: &str,
    state: &State,
    taken: bool,
) -> Result<(), OutOfMemory>
    ensures { (t : Part → Bool) → taken ≡ t Part.ByDefault
        → IfOk result (λ _. length lines.new.items ≡ length lines.old.items
        + length (untaken t (option_to_list
        (option_map (λ next. Part.ByDefault) (default_of (kind_view state.now.kind)))))) }
{
    if has_default(state) && !taken {
        lines.push(format!(in alloc; "{name} Default is never taken")?)?;
    }
    Ok(())
}

/// Puts down the retriers that never retried and may.
fn push_retriers(
    alloc: Global,
    lines: &mut Vec<String>,
    name: &str,
    retriers: &[Retrier],
    taken: &[bool],
) -> Result<(), OutOfMemory>
    ensures { (t : Part → Bool) → taken.now ≡ by_number (λ i. t (Part.RetrierAt i)) retriers.now
        → IfOk result (λ _. length lines.new.items ≡ length lines.old.items
        + length (untaken t (retriers_in (map retrier_view retriers.now)))) }
{
    for (number, retrier) in retriers.iter().enumerate() {
        if 0 < retrier.max_attempts && !is_set(taken, number) {
            let number = counted(alloc, number)?;
            let errors = errors_text(alloc, &retrier.error_equals)?;
            lines.push(format!(in alloc; "{name} retrier {number} ({errors}) never retries")?)?;
        }
    }
    Ok(())
}

/// Puts down the catchers that never caught.
fn push_catchers(
    alloc: Global,
    lines: &mut Vec<String>,
    name: &str,
    catchers: &[Catcher],
    taken: &[bool],
) -> Result<(), OutOfMemory>
    ensures { (t : Part → Bool) → taken.now ≡ by_number (λ i. t (Part.CatcherAt i)) catchers.now
        → IfOk result (λ _. length lines.new.items
        ≡ length lines.old.items + length (untaken t (by_number Part.CatcherAt catchers.now))) }
{
    for (number, catcher) in catchers.iter().enumerate() {
        if !is_set(taken, number) {
            let number = counted(alloc, number)?;
            let errors = errors_text(alloc, &catcher.error_equals)?;
            lines.push(format!(in alloc; "{name} catcher {number} ({errors}) never catches")?)?;
        }
    }
    Ok(())
}

/// Whether the flag of that number is set.
fn is_set(flags: &[bool], number: usize) -> bool
    ensures { result ≡ unwrap_or (slice_get flags.now number) false }
{
    flags.get(number).copied().unwrap_or(false)
}

/// The names of errors, between commas.
fn errors_text(alloc: Global, names: &[String]) -> Result<String, OutOfMemory> {
    let mut text = String::new(alloc);
    for name in names {
        if !text.is_empty() {
            text.push_str(", ")?;
        }
        text.push_str(name)?;
    }
    Ok(text)
}
