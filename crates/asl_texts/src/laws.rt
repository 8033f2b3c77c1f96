//! What a yes means for what stands in the midst of a run. The functions here do nothing: their contracts are the laws.

ghost use Rattle.std.specs.Prelude.{◌≡◌, List, Option, Some, ℕ};
ghost use Rattle.asl_model.specs.Headline.{IsVerdictOn, NeverFaults};
ghost use Rattle.asl_model.specs.Machine.{Scope, LeadsInside};
ghost use Rattle.asl_model.specs.Certificate.{Declared, Certificate, IsClosed, MovesOn, Works, Nests, IsKeptBy, KeepsData};
ghost use Rattle.asl_model.specs.Printed.{RunEnd};
ghost use Rattle.asl_model.specs.TracePrinted.{HasNoRaiseLine};
ghost use Rattle.asl_texts.specs.FirstTold.{TellsFirstOn};
ghost use Rattle.asl_texts.specs.Runs.{RunsTexts, texts_of, request_of};
ghost use Rattle.asl_model.specs.Verdict.{Verdict};
ghost use Rattle.asl_texts.specs.Agreement.{Agree};
ghost use Rattle.asl_texts.specs.declared.runs.Pick.{Pick};

/// An event at a Pass, a Succeed or a Fail, wherever it is nested, leaves every activity of a run as certified: its
/// raw input of its certified input, an ended scope's output of the shape certified for its end; and, where the
/// machine's names lead inside its scopes, as those of every definition do, each state one of the scope in which it
/// stands.
pub fn activities_stay_as_certified()
    ensures data { (declared : Declared) (certificate : Certificate) (machine : Scope)
        → IsClosed declared certificate machine → KeepsData MovesOn declared certificate machine }
    ensures activities { (declared : Declared) (certificate : Certificate) (machine : Scope)
        → IsClosed declared certificate machine → LeadsInside machine
        → IsKeptBy MovesOn declared certificate machine }
{
    asl_model::run_laws::moving_on_keeps_activities_as_certified();
}

/// An event at a Wait, a Choice or a Task, wherever it is nested, retried and caught or not, leaves every activity
/// of a run as certified, a waiting Task's payload of the shape that the task takes with it.
pub fn working_activities_stay_as_certified()
    ensures data { (declared : Declared) (certificate : Certificate) (machine : Scope)
        → IsClosed declared certificate machine → KeepsData Works declared certificate machine }
    ensures activities { (declared : Declared) (certificate : Certificate) (machine : Scope)
        → IsClosed declared certificate machine → LeadsInside machine
        → IsKeptBy Works declared certificate machine }
{
    asl_model::run_laws::working_keeps_activities_as_certified();
}

/// An event at a Parallel or a Map, wherever it is nested, which splits, joins or abandons its children, leaves every
/// activity of a run as certified, each child in its own scope.
pub fn nesting_activities_stay_as_certified()
    ensures data { (declared : Declared) (certificate : Certificate) (machine : Scope)
        → IsClosed declared certificate machine → KeepsData Nests declared certificate machine }
    ensures activities { (declared : Declared) (certificate : Certificate) (machine : Scope)
        → IsClosed declared certificate machine → LeadsInside machine
        → IsKeptBy Nests declared certificate machine }
{
    asl_model::run_laws::nesting_keeps_activities_as_certified();
}

/// Where `verify_texts` says yes, no run of the same definition with the same declared shapes tells a data-flow fault:
/// among the lines that `run_texts` writes there is no Raise line, whatever the input and the answers are, in whatever
/// order the places are picked, and after however many events the run ends.
pub fn verified_runs_write_no_raise_line()
    ensures { (definition declared certificate : List ℕ)
        → NeverFaults definition declared certificate
        → (input : List ℕ) (known : Option (List ℕ)) (order : Pick) (most : ℕ)
        (end : RunEnd) (text : List ℕ)
        → let request = request_of (texts_of definition (Some declared) input known) order most in
        RunsTexts request end text → HasNoRaiseLine text }
{
    asl_model::reading_laws::texts_have_one_meaning();
    asl_model::run_laws::faultless_traces_have_no_raise_line();
}

/// Two right verdicts on the same three texts agree: both are yes, or both are no with findings of the same names. Where
/// both tell of each name the first of its broken rules, they are the same verdict, examples included. So the one of
/// `verify_inferred` of `asl_tool` is that of `verify_texts`, on each text that `infer_texts` may write.
pub fn verdicts_on_the_same_texts_agree()
    ensures agree { (definition declared certificate : List ℕ) (one other : Verdict)
        → IsVerdictOn definition declared certificate one
        → IsVerdictOn definition declared certificate other → Agree one other }
    ensures same { (definition declared certificate : List ℕ) (one other : Verdict)
        → IsVerdictOn definition declared certificate one
        → IsVerdictOn definition declared certificate other
        → TellsFirstOn definition declared certificate one
        → TellsFirstOn definition declared certificate other → one ≡ other }
{
    asl_model::reading_laws::texts_have_one_meaning();
}
