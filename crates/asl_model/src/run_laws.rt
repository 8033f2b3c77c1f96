//! Laws about runs. Each function here does nothing: its contract is the law.

ghost use Rattle.std.specs.Prelude.{◌≡◌, ◌≢◌, ◌↔◌, ◌∷◌, ◌++◌, ℕ, suc, List, Option, Some, is_some, IsTrue};
ghost use Rattle.asl_model.specs.Names.{ErrorName, Bytes, PlaceInRun, RetryCounts};
ghost use Rattle.asl_model.specs.Tree.{Tree};
ghost use Rattle.asl_model.specs.Path.{Segment, named_by, Names};
ghost use Rattle.asl_model.specs.Placing.{placed, Places};
ghost use Rattle.asl_model.specs.Intrinsic.{Item, Pieces, cut_at_holes, ArePiecesOf};
ghost use Rattle.asl_model.specs.Template.{Template, template_value, IsInOrder, TellsLeastFailure};
ghost use Rattle.asl_model.specs.Test.{PatternPart, is_cut_by, IsCutBy};
ghost use Rattle.asl_model.specs.Machine.{Scope, Settings, LeadsInside};
ghost use Rattle.asl_model.specs.Run.{Activity, Action, Entry, Event, Step, activity_at, step_at, run_of, trace};
ghost use Rattle.asl_model.specs.Run.{want_of, enabled, count_at, one_higher, Trouble, trouble_of, ComesTo};
ghost use Rattle.asl_model.specs.Run.{AreApart, HasChildReplaced, Commute, Enables, AreInLexicographicOrder};
ghost use Rattle.asl_model.specs.TracePrinted.{HasNoRaiseLine, trace_text};
ghost use Rattle.asl_model.specs.Certificate.{Declared, Certificate, IsClosed, Obeys, TellsNoFault};
ghost use Rattle.asl_model.specs.Certificate.{RunIsAsCertified, ActivitiesAreAsCertified};
ghost use Rattle.asl_model.specs.Certificate.{DataAreAsCertified, MovesOn, Works, Nests, IsKeptBy, KeepsData};

/// Closed runs never fault: where a certificate is closed for a machine and declared shapes, then for every input and
/// every list of events that obey them, no turn raises a data-flow fault, and each state's input, each payload, each
/// output and the output of each scope has its certified shape. The events are moves and answers, those of branches
/// and iterations in any order; each answer that is taken is a failure, or has its declared shape.
pub fn closed_runs_never_fault()
    ensures { (declared : Declared) (certificate : Certificate) (machine : Scope)
        → IsClosed declared certificate machine → (input : Tree) (events : List Event)
        → Obeys declared machine input events
        → RunIsAsCertified declared certificate machine input events }
{}

/// Closed runs tell no fault: under the same premises the history of the run has no entry of a data-flow fault.
pub fn closed_runs_tell_no_fault()
    ensures { (declared : Declared) (certificate : Certificate) (machine : Scope)
        → IsClosed declared certificate machine → (input : Tree) (events : List Event)
        → Obeys declared machine input events → TellsNoFault (trace (run_of machine input events)) }
{}

/// The lines of a history without a data-flow fault have no Raise line among them.
pub fn faultless_traces_have_no_raise_line()
    ensures { (told : List (PlaceInRun × Entry)) → TellsNoFault told
        → HasNoRaiseLine (trace_text told) }
{}

/// Every activity of an obeying run is as certified, at every nesting depth. Its data are, for every machine: the raw
/// input of each Ready, Waiting and Split is of its state's certified input; each Waiting has the payload that its
/// state asks with, one that its task takes; each Split one child a branch, or one an element of the list found for its
/// raw input, each in its own scope; each Done an output of its scope's end. Where the machine's names lead inside its
/// scopes, the state of each Ready, Waiting and Split is one of the scope in which it stands.
pub fn every_activity_is_as_certified()
    ensures data_fit { (declared : Declared) (certificate : Certificate) (machine : Scope)
        → IsClosed declared certificate machine → (input : Tree) (events : List Event)
        → Obeys declared machine input events
        → DataAreAsCertified declared certificate machine input events }
    ensures activities_fit { (declared : Declared) (certificate : Certificate) (machine : Scope)
        → IsClosed declared certificate machine → LeadsInside machine
        → (input : Tree) (events : List Event) → Obeys declared machine input events
        → ActivitiesAreAsCertified declared certificate machine input events }
{}

/// An event at a Pass, a Succeed or a Fail, wherever it is nested, leaves every activity's data as certified; and every
/// activity, where the machine's names lead inside its scopes, as those of every definition do.
pub fn moving_on_keeps_activities_as_certified()
    ensures data_fit { (declared : Declared) (certificate : Certificate) (machine : Scope)
        → IsClosed declared certificate machine → KeepsData MovesOn declared certificate machine }
    ensures activities_fit { (declared : Declared) (certificate : Certificate) (machine : Scope)
        → IsClosed declared certificate machine → LeadsInside machine
        → IsKeptBy MovesOn declared certificate machine }
{}

/// So does an event at a Wait, a Choice or a Task, with retry and catch.
pub fn working_keeps_activities_as_certified()
    ensures data_fit { (declared : Declared) (certificate : Certificate) (machine : Scope)
        → IsClosed declared certificate machine → KeepsData Works declared certificate machine }
    ensures activities_fit { (declared : Declared) (certificate : Certificate) (machine : Scope)
        → IsClosed declared certificate machine → LeadsInside machine
        → IsKeptBy Works declared certificate machine }
{}

/// So does an event at a Parallel or a Map, which splits, joins or abandons its children.
pub fn nesting_keeps_activities_as_certified()
    ensures data_fit { (declared : Declared) (certificate : Certificate) (machine : Scope)
        → IsClosed declared certificate machine → KeepsData Nests declared certificate machine }
    ensures activities_fit { (declared : Declared) (certificate : Certificate) (machine : Scope)
        → IsClosed declared certificate machine → LeadsInside machine
        → IsKeptBy Nests declared certificate machine }
{}

/// What stands apart from an event's place stays as it was. What stands above it is a Split, and stays the Split of the
/// same state with the same raw input, counts and children, but for the child on the way to that place.
pub fn apart_stays_as_it_was()
    ensures apart { (p q : PlaceInRun) → AreApart p q
        → (scope : Scope) (a : Activity) (action : Action) (taken : Step)
        → step_at p scope a action ≡ Some taken → activity_at q taken.after ≡ activity_at q a }
    ensures above { (q : PlaceInRun) (i : ℕ) (p : PlaceInRun) (scope : Scope) (a : Activity)
        (action : Action) (taken : Step)
        → step_at (q ++ i ∷ p) scope a action ≡ Some taken
        → HasChildReplaced i (activity_at q a) (activity_at q taken.after) }
{}

/// Two events at places apart can be taken in either order: each makes the same entries, and the activity after both
/// is the same.
pub fn apart_events_commute()
    ensures { (p q : PlaceInRun) → AreApart p q
        → (scope : Scope) (a : Activity) (x y : Action) (first second : Step)
        → step_at p scope a x ≡ Some first → step_at q scope first.after y ≡ Some second
        → Commute scope a p x q y first second }
{}

/// A place is in the list of enabled ones, with a kind of event, exactly where an event of that kind has a step there.
pub fn enabled_lists_exactly_the_steps()
    ensures { (p : PlaceInRun) (scope : Scope) (a : Activity) (action : Action)
        → IsTrue (is_some (step_at p scope a action))
        ↔ Enables (enabled a scope) p (want_of action) }
{}

/// The enabled places stand in lexicographic order, a place before those below it, each once.
pub fn enabled_places_stand_in_order()
    ensures { (a : Activity) (scope : Scope) → AreInLexicographicOrder (enabled a scope) }
{}

/// The function that looks up a path gives exactly what the path names.
pub fn named_by_is_exactly_names()
    ensures { (p : List Segment) (v w : Tree) → Names p v w ↔ named_by p v ≡ Some w }
{}

/// The function that places a tree gives exactly what the placing gives, and nothing where there is no placing.
pub fn placed_is_exactly_places()
    ensures { (p : List Segment) (w v u : Tree) → Places p w v u ↔ placed p w v ≡ Some u }
{}

/// A text passes the test of a pattern exactly where it can be cut into parts, one for each element of the pattern.
pub fn matching_is_exactly_cutting()
    ensures { (parts : List PatternPart) (text : Bytes)
        → IsCutBy parts text ↔ IsTrue (is_cut_by parts text) }
{}

/// Cutting a text at its holes gives exactly its pieces: joined by `{}` they are the text, and no piece has a hole in
/// it.
pub fn cutting_gives_exactly_the_pieces()
    ensures { (text : Bytes) (pieces : Pieces)
        → ArePiecesOf text pieces ↔ cut_at_holes text ≡ pieces }
{}

/// The value of a template whose names stand in byte order is the fault of its least failing place, or else every place
/// filled, where no place fails.
pub fn template_faults_are_those_of_the_least_place()
    ensures { (input : Tree) (item : Option Item) (t : Template) → IsInOrder t
        → TellsLeastFailure input item t (template_value t input item) }
{}

/// What comes of an error in a state is exactly what the rules of retriers and catchers say: it is retried, or caught,
/// or its error output can't be placed, or the state fails.
pub fn trouble_is_exactly_what_comes()
    ensures { (settings : Settings) (raw : Tree) (counts : RetryCounts) (error : ErrorName)
        (cause : Bytes) (t : Trouble)
        → ComesTo settings raw counts error cause t
        ↔ trouble_of settings raw counts error cause ≡ t }
{}

/// Each retrier counts its own attempts: a retry makes its count one higher, and leaves the others.
pub fn each_retrier_counts_its_own_attempts()
    ensures own { (i : ℕ) (counts : RetryCounts)
        → count_at i (one_higher i counts) ≡ suc (count_at i counts) }
    ensures others { (i j : ℕ) (counts : RetryCounts) → i ≢ j
        → count_at j (one_higher i counts) ≡ count_at j counts }
{}
