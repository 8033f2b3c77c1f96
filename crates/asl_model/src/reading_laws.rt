//! Laws about what texts mean. Each function here does nothing: its contract is the law.

ghost use Rattle.std.specs.Prelude.{◌≡◌, ◌⊎◌, ◌↔◌, ℕ, List, length, Bool, not, Some, Ok, Err, IsTrue};
ghost use Rattle.std.specs.Str.{encode_utf8_all};
ghost use Rattle.serde_json.specs.Data.{Data};
ghost use Rattle.asl_model.specs.Names.{Bytes};
ghost use Rattle.asl_model.specs.Tree.{Tree, IsProper};
ghost use Rattle.asl_model.specs.Path.{Segment};
ghost use Rattle.asl_model.specs.Shape.{Shape, IsProperShape, has_several};
ghost use Rattle.asl_model.specs.Written.{written_shape, written_declared, written_certificate};
ghost use Rattle.asl_model.specs.WrittenNumbered.{written_numbered};
ghost use Rattle.asl_model.specs.Template.{Template, IsInOrder};
ghost use Rattle.asl_model.specs.Test.{Rule};
ghost use Rattle.asl_model.specs.Machine.{Scope, LeadsInside};
ghost use Rattle.asl_model.specs.Certificate.{Declared, Certificate};
ghost use Rattle.asl_model.specs.Json.{ReadsAsValue, ReadsAsTree, tree_of};
ghost use Rattle.asl_model.specs.PathSpelling.{path_of, Spells, PathFault, IsRefusedPath, printed_path, have_spellings};
ghost use Rattle.asl_model.specs.ShapeSpelling.{SpellsShape, ShapeFault, HasShapeFault, SpellsShapeV1, HasShapeFaultV1};
ghost use Rattle.asl_model.specs.TemplateSpelling.{TemplateFault, template_of, SpellsTemplate, HasTemplateFault};
ghost use Rattle.asl_model.specs.TemplateGrammar.{StandsForTemplate};
ghost use Rattle.asl_model.specs.RuleSpelling.{RuleFault, rule_of, SpellsRule, HasRuleFault};
ghost use Rattle.asl_model.specs.RuleGrammar.{StandsForRule};
ghost use Rattle.asl_model.specs.Intrinsic.{Reference, Call};
ghost use Rattle.asl_model.specs.CallSpelling.{reference_of, WrittenCall, written_call, CallFault, call_from};
ghost use Rattle.asl_model.specs.CallGrammar.{WritesCall, SpellsReference, SpellsCall, IsRefusedCall};
ghost use Rattle.asl_model.specs.Run.{Action};
ghost use Rattle.asl_model.specs.AnswersSpelling.{ReadsAsAnswers, IsAnswersFault, StandsForAnswers, IsBadAnswer};
ghost use Rattle.asl_model.specs.RecordShapes.{HoldsForDeclared, HoldsForCertificate};
ghost use Rattle.asl_model.specs.Records.{RecordComplaint, StandsForDeclared};
ghost use Rattle.asl_model.specs.Records.{StandsForCertificate, HasDeclaredFault, HasCertificateFault};
ghost use Rattle.asl_model.specs.StandsFor.{Complaint, StandsFor, HasComplaint, characters};
ghost use Rattle.asl_model.specs.Texts.{TextFault, BadAnswer, ReadsAsMachine, ReadsAsDeclared};
ghost use Rattle.asl_model.specs.Texts.{ReadsAsCertificate, IsDefinitionFault, IsDeclaredFault, IsCertificateFault};

/// A text reads as at most one JSON value, tree, reference path, machine, declared shapes, certificate.
pub fn texts_have_one_meaning()
    ensures value { (text : Bytes) (v w : Data) → ReadsAsValue text v → ReadsAsValue text w
        → v ≡ w }
    ensures tree { (text : Bytes) (t u : Tree) → ReadsAsTree text t → ReadsAsTree text u → t ≡ u }
    ensures path { (text : Bytes) (p q : List Segment) → Spells text p → Spells text q → p ≡ q }
    ensures machine { (text : Bytes) (m n : Scope) → ReadsAsMachine text m → ReadsAsMachine text n
        → m ≡ n }
    ensures declared { (text : Bytes) (d e : Declared) → ReadsAsDeclared text d
        → ReadsAsDeclared text e → d ≡ e }
    ensures certificate { (text : Bytes) (c d : Certificate) → ReadsAsCertificate text c
        → ReadsAsCertificate text d → c ≡ d }
{}

/// Nothing is wrong with a text that has a meaning.
pub fn meaningful_texts_have_no_fault()
    ensures path { (text : Bytes) (p : List Segment) (f : PathFault) → Spells text p
        → IsRefusedPath text f → ⊥ }
    ensures machine { (text : Bytes) (m : Scope) (f : TextFault) → ReadsAsMachine text m
        → IsDefinitionFault text f → ⊥ }
    ensures declared { (text : Bytes) (d : Declared) (f : TextFault) → ReadsAsDeclared text d
        → IsDeclaredFault text f → ⊥ }
    ensures certificate { (text : Bytes) (c : Certificate) (f : TextFault)
        → ReadsAsCertificate text c → IsCertificateFault text f → ⊥ }
{}

/// A JSON value stands for at most one machine, declared shapes, certificate, and nothing is wrong with one that does.
pub fn values_stand_for_one_thing()
    ensures machine { (v : Data) (m n : Scope) → StandsFor v m → StandsFor v n → m ≡ n }
    ensures no_complaint { (v : Data) (m : Scope) (c : Complaint) → StandsFor v m → HasComplaint v c
        → ⊥ }
    ensures declared { (v : Data) (d e : Declared) → StandsForDeclared v d → StandsForDeclared v e
        → d ≡ e }
    ensures no_declared_fault { (v : Data) (d : Declared) (c : RecordComplaint)
        → StandsForDeclared v d → HasDeclaredFault v c → ⊥ }
    ensures certificate { (v : Data) (c d : Certificate) → StandsForCertificate v c
        → StandsForCertificate v d → c ≡ d }
    ensures no_certificate_fault { (v : Data) (d : Certificate) (c : RecordComplaint)
        → StandsForCertificate v d → HasCertificateFault v c → ⊥ }
{}

/// A tree that a text reads as is proper: its texts are UTF-8, and each object has its names once, in byte order.
pub fn trees_as_read_are_proper()
    ensures { (text : Bytes) (t : Tree) → ReadsAsTree text t → IsProper t }
{}

/// The names in a machine that a definition stands for lead inside its scopes: each scope starts at one of its own
/// states, and what follows a state is a state of the same scope.
pub fn machines_as_read_lead_inside()
    ensures value { (v : Data) (m : Scope) → StandsFor v m → LeadsInside m }
    ensures text { (text : Bytes) (m : Scope) → ReadsAsMachine text m → LeadsInside m }
{}

/// A tree spells at most one shape, and nothing is wrong with one that does. So it is in the first version of
/// certificates.
pub fn trees_spell_one_shape()
    ensures shape { (t : Tree) (a b : Shape) → SpellsShape t a → SpellsShape t b → a ≡ b }
    ensures no_fault { (t : Tree) (a : Shape) (f : ShapeFault) → SpellsShape t a → HasShapeFault t f
        → ⊥ }
    ensures shape_v1 { (t : Tree) (a b : Shape) → SpellsShapeV1 t a → SpellsShapeV1 t b → a ≡ b }
    ensures no_fault_v1 { (t : Tree) (a : Shape) (f : ShapeFault) → SpellsShapeV1 t a
        → HasShapeFaultV1 t f → ⊥ }
{}

/// What spells a shape in the first version of certificates spells it in the second.
pub fn first_version_spells_the_same()
    ensures { (t : Tree) (a : Shape) → SpellsShapeV1 t a → SpellsShape t a }
{}

/// A tree spells at most one template, and either spells one or has a fault. So it is with and without leave for paths
/// to a Map's item.
pub fn trees_spell_one_template()
    ensures template { (item : Bool) (t : Tree) (p q : Template) → SpellsTemplate item t p
        → SpellsTemplate item t q → p ≡ q }
    ensures no_fault { (item : Bool) (t : Tree) (p : Template) (f : TemplateFault)
        → SpellsTemplate item t p → HasTemplateFault item t f → ⊥ }
    ensures either { (item : Bool) (t : Tree)
        → ((p : Template) × SpellsTemplate item t p)
        ⊎ ((f : TemplateFault) × HasTemplateFault item t f) }
    ensures read { (item : Bool) (t : Tree) (p : Template)
        → (template_of item t ≡ Some p) ↔ SpellsTemplate item t p }
{}

/// A tree spells exactly the template that it stands for by the rules of payload templates.
pub fn templates_are_exactly_spelled()
    ensures { (item : Bool) (t : Tree) (p : Template)
        → SpellsTemplate item t p ↔ StandsForTemplate item t p }
{}

/// A template that a tree spells stands in order: at every depth each object has its names once, in byte order.
pub fn templates_as_read_stand_in_order()
    ensures { (item : Bool) (t : Tree) (p : Template) → SpellsTemplate item t p → IsInOrder p }
{}

/// A tree spells at most one choice rule, and either spells one or has a fault.
pub fn trees_spell_one_rule()
    ensures rule { (t : Tree) (a b : Rule) → SpellsRule t a → SpellsRule t b → a ≡ b }
    ensures no_fault { (t : Tree) (a : Rule) (f : RuleFault) → SpellsRule t a → HasRuleFault t f
        → ⊥ }
    ensures either { (t : Tree)
        → ((a : Rule) × SpellsRule t a) ⊎ ((f : RuleFault) × HasRuleFault t f) }
    ensures read { (t : Tree) (a : Rule) → (rule_of t ≡ Some a) ↔ SpellsRule t a }
{}

/// A tree spells exactly the rule that it stands for by the rules of Choice states.
pub fn rules_are_exactly_spelled()
    ensures { (t : Tree) (rule : Rule) → SpellsRule t rule ↔ StandsForRule t rule }
{}

/// A proper shape is spelled by the tree that is written for it; in the first version of certificates too, where neither
/// it nor a shape inside it is of several kinds.
pub fn written_shapes_are_spelled()
    ensures spelled { (a : Shape) → IsProperShape a → SpellsShape (written_shape a) a }
    ensures first_version { (a : Shape) → IsProperShape a → IsTrue (not (has_several a))
        → SpellsShapeV1 (written_shape a) a }
{}

/// Every JSON value that is the tree written for declared shapes, or for a certificate, of proper shapes stands for
/// them.
pub fn written_records_are_read_back()
    ensures declared { (v : Data) (d : Declared) → HoldsForDeclared IsProperShape d
        → tree_of v ≡ Some (written_declared d) → StandsForDeclared v d }
    ensures certificate { (v : Data) (c : Certificate) → HoldsForCertificate IsProperShape c
        → tree_of v ≡ Some (written_certificate c) → StandsForCertificate v c }
    ensures numbered { (v : Data) (c : Certificate) → HoldsForCertificate IsProperShape c
        → tree_of v ≡ Some (written_numbered c) → StandsForCertificate v c }
{}

/// Each text has a meaning or a fault, and so has each JSON value as a definition and each tree as a shape.
pub fn texts_have_a_meaning_or_a_fault()
    ensures machine { (text : Bytes)
        → ((m : Scope) × ReadsAsMachine text m) ⊎ ((f : TextFault) × IsDefinitionFault text f) }
    ensures declared { (text : Bytes)
        → ((d : Declared) × ReadsAsDeclared text d) ⊎ ((f : TextFault) × IsDeclaredFault text f) }
    ensures certificate { (text : Bytes)
        → ((c : Certificate) × ReadsAsCertificate text c)
        ⊎ ((f : TextFault) × IsCertificateFault text f) }
    ensures value { (v : Data)
        → ((m : Scope) × StandsFor v m) ⊎ ((c : Complaint) × HasComplaint v c) }
    ensures shape { (t : Tree)
        → ((a : Shape) × SpellsShape t a) ⊎ ((f : ShapeFault) × HasShapeFault t f) }
    ensures shape_v1 { (t : Tree)
        → ((a : Shape) × SpellsShapeV1 t a) ⊎ ((f : ShapeFault) × HasShapeFaultV1 t f) }
{}

/// Each text spells a reference path or is refused, in one way. The function that reads paths gives exactly the path
/// that a text spells.
pub fn texts_spell_paths_or_are_refused()
    ensures either { (text : Bytes)
        → ((p : List Segment) × Spells text p) ⊎ ((f : PathFault) × IsRefusedPath text f) }
    ensures one_refusal { (text : Bytes) (f g : PathFault) → IsRefusedPath text f
        → IsRefusedPath text g → f ≡ g }
    ensures read { (text : Bytes) (p : List Segment) → (path_of text ≡ Some p) ↔ Spells text p }
{}

/// The printed form of a path spells it, if any text does, and reads as that path again. Such paths are those whose
/// segments have a spelling each.
pub fn printed_paths_are_spelled()
    ensures again { (text : Bytes) (p : List Segment) → Spells text p → Spells (printed_path p) p }
    ensures spelled { (p : List Segment) → IsTrue (have_spellings p) → Spells (printed_path p) p }
    ensures have_spellings { (text : Bytes) (p : List Segment) → Spells text p
        → IsTrue (have_spellings p) }
    ensures read_back { (p : List Segment) → IsTrue (have_spellings p)
        → path_of (printed_path p) ≡ Some p }
{}

/// The characters of a text are as many as its bytes that continue no character.
pub fn characters_are_counted()
    ensures { (text : Bytes) → characters (encode_utf8_all text) ≡ length text }
{}

/// A text reads as at most one list of answers, and reads as one or has a fault, never both.
pub fn texts_have_one_list_of_answers()
    ensures one { (text : Bytes) (a b : List Action) → ReadsAsAnswers text a → ReadsAsAnswers text b
        → a ≡ b }
    ensures no_fault { (text : Bytes) (a : List Action) (f : TextFault) → ReadsAsAnswers text a
        → IsAnswersFault text f → ⊥ }
    ensures either { (text : Bytes)
        → ((a : List Action) × ReadsAsAnswers text a) ⊎ ((f : TextFault) × IsAnswersFault text f) }
{}

/// The function that cuts a text as a call gives exactly the call that the text writes, and the one that reads paths in
/// templates exactly the path that it spells.
pub fn written_calls_are_exactly_cut()
    ensures written { (text : Bytes) (c : WrittenCall)
        → (written_call text ≡ Some c) ↔ WritesCall 32 text c }
    ensures reference { (item : Bool) (text : Bytes) (r : Reference)
        → (reference_of item text ≡ Some r) ↔ SpellsReference item text r }
{}

/// Each text spells an intrinsic call or is refused, never both, and in one way: the lesser refusal counts. The
/// function that reads calls gives exactly the call that a text spells, or its refusal. So it is with and without leave
/// for paths to a Map's item.
pub fn texts_spell_calls_or_are_refused()
    ensures either { (item : Bool) (text : Bytes)
        → ((c : Call) × SpellsCall item text c) ⊎ ((f : CallFault) × IsRefusedCall item text f) }
    ensures call { (item : Bool) (text : Bytes) (c d : Call) → SpellsCall item text c
        → SpellsCall item text d → c ≡ d }
    ensures no_refusal { (item : Bool) (text : Bytes) (c : Call) (f : CallFault)
        → SpellsCall item text c → IsRefusedCall item text f → ⊥ }
    ensures one_refusal { (item : Bool) (text : Bytes) (f g : CallFault) → IsRefusedCall item text f
        → IsRefusedCall item text g → f ≡ g }
    ensures read { (item : Bool) (text : Bytes) (c : Call)
        → (call_from item text ≡ Ok c) ↔ SpellsCall item text c }
    ensures refused { (item : Bool) (text : Bytes) (f : CallFault)
        → (call_from item text ≡ Err f) ↔ IsRefusedCall item text f }
{}

/// A text reads as a list of answers exactly where it reads as a tree that stands for it, by the rules of the format,
/// and an element is refused exactly where it stands for no answer.
pub fn answers_are_exactly_read()
    ensures read { (text : Bytes) (answers : List Action)
        → ReadsAsAnswers text answers
        ↔ ((t : Tree) × ReadsAsTree text t × StandsForAnswers t answers) }
    ensures bad { (text : Bytes) (i : ℕ)
        → IsAnswersFault text (BadAnswer i) ↔ ((t : Tree) × ReadsAsTree text t × IsBadAnswer t i) }
{}
