//! Laws about shapes: each is the contract of a public function with an empty body.

ghost use Rattle.std.specs.Prelude.{◌≡◌, ◌↔◌, Bool, IsTrue, List, [], None, Ok, Option, Some, is_ok, is_some};
ghost use Rattle.std.specs.Prelude.{IfSome, not};
ghost use Rattle.asl_model.specs.Tree.{Tree, IsProper};
ghost use Rattle.asl_model.specs.Path.{Segment, Names};
ghost use Rattle.asl_model.specs.Placing.{Places};
ghost use Rattle.asl_model.specs.Intrinsic.{Item};
ghost use Rattle.asl_model.specs.Template.{Template, template_value};
ghost use Rattle.asl_model.specs.Test.{Test, truth};
ghost use Rattle.asl_model.specs.Machine.{Kind, Scope, Settings};
ghost use Rattle.asl_model.specs.Flow.{at_output_path, output_of};
ghost use Rattle.asl_model.specs.Shape.{Shape, has, IsValid, Has, Inside, IsOrdered, IsProperShape};
ghost use Rattle.asl_model.specs.Shape.{inhabited};
ghost use Rattle.asl_model.specs.ShapeOrder.{sub, join};
ghost use Rattle.asl_model.specs.Examples.{example, outside, IsOutside};
ghost use Rattle.asl_model.specs.ShapeFlow.{look, put, ItemHas, template_shape, rule_shape};
ghost use Rattle.asl_model.specs.ShapeFlow.{leave, leaving, WithInput, WithResult};
ghost use Rattle.asl_model.specs.Missing.{missing, IsMissing};
ghost use Rattle.asl_model.specs.Certificate.{Certificate, Declared, IsClosed};
ghost use Rattle.asl_model.specs.RecordShapes.{HoldsForCertificate, HoldsForDeclared};
ghost use Rattle.asl_model.specs.Finding.{Finding, has_example, findings, Stands};
ghost use Rattle.asl_model.specs.FindingRules.{IsBroken};

/// The test of membership in a shape is true exactly where the tree is valid against it.
pub fn has_is_exactly_valid()
    ensures exactly { (s : Shape) (t : Tree) → IsValid s t ↔ IsTrue (has s t) }
{}

/// Where the comparison of two shapes is true, every tree of the first has the second.
pub fn sub_means_inside()
    ensures inside { (a b : Shape) → IsTrue (sub a b) → Inside a b }
{}

/// The comparison of two shapes is false exactly where a tree is found outside, which has the first and lacks the second;
/// so it is true wherever every tree of the first has the second.
pub fn sub_is_exactly_inside()
    ensures outside { (a b : Shape) (t : Tree) → IsOrdered a → outside a b ≡ Some t
        → IsOutside a b t }
    ensures exactly { (a b : Shape) → (outside a b ≡ None) ↔ IsTrue (sub a b) }
    ensures complete { (a b : Shape) → IsOrdered a → Inside a b → IsTrue (sub a b) }
{}

/// No tree has a shape that isn't inhabited.
pub fn uninhabited_means_no_tree()
    ensures none { (s : Shape) → IsTrue (not (inhabited s)) → (t : Tree) → Has s t → ⊥ }
{}

/// The example of a shape that is inhabited has it where names stand in order, and is proper where the shape is.
pub fn examples_have_their_shapes()
    ensures has { (s : Shape) → IsOrdered s → IsTrue (inhabited s) → Has s (example s) }
    ensures proper { (s : Shape) → IsProperShape s → IsTrue (inhabited s) → IsProper (example s) }
{}

/// A proper shape that is inhabited has a proper tree: its texts are UTF-8, and each object has its names once, in byte
/// order.
pub fn inhabited_means_some_tree()
    ensures some { (s : Shape) → IsProperShape s → IsTrue (inhabited s)
        → (t : Tree) × IsProper t × Has s t }
{}

/// Every tree of either shape has their join.
pub fn join_is_above_both()
    ensures left { (a b : Shape) → Inside a (join a b) }
    ensures right { (a b : Shape) → Inside b (join a b) }
{}

/// Where a path is found in a shape, it names in every tree of that shape a tree of the shape that is found.
pub fn look_means_named()
    ensures named { (path : List Segment) (s t : Shape) → look path s ≡ Ok t → (v : Tree) → Has s v
        → (w : Tree) × Names path v w × Has t w }
{}

/// Where a path isn't found in a shape, and only there, a tree is told: it has the shape, and the path names nothing in
/// it.
pub fn look_is_exactly_named()
    ensures missing { (path : List Segment) (s : Shape) (t : Tree) → IsOrdered s
        → missing path s ≡ Some t → IsMissing path s t }
    ensures exactly { (path : List Segment) (s : Shape)
        → (missing path s ≡ None) ↔ IsTrue (is_ok (look path s)) }
{}

/// Where a shape is put at a path in another, placing any tree of the one there in any tree of the other gives a tree
/// of the shape that comes out.
pub fn put_means_placed()
    ensures placed { (path : List Segment) (w s r : Shape) → put path w s ≡ Ok r → (x v : Tree)
        → Has w x → Has s v → (u : Tree) × Places path x v u × Has r u }
{}

/// Joins and puts keep names in order, and so do templates, rules and a state's way out.
pub fn names_stay_in_order()
    ensures join { (a b : Shape) → IsOrdered a → IsOrdered b → IsOrdered (join a b) }
    ensures put { (path : List Segment) (w s r : Shape) → IsOrdered w → IsOrdered s
        → put path w s ≡ Ok r → IsOrdered r }
    ensures template { (template : Template) (input : Shape) (item : Option Shape) (r : Shape)
        → IsOrdered input → IfSome item IsOrdered → template_shape template input item ≡ Ok r
        → IsOrdered r }
    ensures rule { (test : Test) (s r : Shape) → IsOrdered s → rule_shape test s ≡ Ok r
        → IsOrdered r }
    ensures output { (settings : Settings) (kind : Kind) (raw work r : Shape) → IsOrdered raw
        → IsOrdered work → leave settings kind raw work ≡ Ok r → IsOrdered r }
{}

/// Where a template has a shape, it has a value of that shape for every tree of the input's shape and every item of
/// the item's.
pub fn template_shape_means_a_value()
    ensures value { (template : Template) (input : Shape) (item : Option Shape) (r : Shape)
        → template_shape template input item ≡ Ok r → (v : Tree) (i : Option Item) → Has input v
        → ItemHas item i → (u : Tree) × (template_value template v i ≡ Ok u) × Has r u }
{}

/// Where a rule has a shape, its test is true or false of every tree, and each tree of which it is true has that shape.
pub fn rule_shape_means_decided()
    ensures decided { (test : Test) (s r : Shape) → rule_shape test s ≡ Ok r → (v : Tree) → Has s v
        → (b : Bool) × (truth test v ≡ Some b) × (IsTrue b → Has r v) }
{}

/// Where a state's output has a shape, no data-flow fault is met on the way to it, and it has that shape: for a result
/// that goes through `ResultSelector`, `ResultPath` and `OutputPath`, and for an effective input that goes through
/// `OutputPath` alone.
pub fn leave_means_an_output()
    ensures result { (settings : Settings) (kind : Kind) (raw work r : Shape)
        → leaving kind ≡ WithResult → leave settings kind raw work ≡ Ok r → (v x : Tree) → Has raw v
        → Has work x → (u : Tree) × (output_of settings v x ≡ Ok u) × Has r u }
    ensures input { (settings : Settings) (kind : Kind) (raw work r : Shape)
        → leaving kind ≡ WithInput → leave settings kind raw work ≡ Ok r → (v x : Tree) → Has raw v
        → Has work x → (u : Tree) × (at_output_path settings x ≡ Ok u) × Has r u }
{}

/// Where no rule is broken, the certificate is closed: for every machine of all eight state types.
pub fn no_broken_rule_means_closed()
    ensures closed { (machine : Scope) (declared : Declared) (certificate : Certificate)
        → findings machine declared certificate ≡ [] → IsClosed declared certificate machine }
{}

/// Each rule in the list of findings is broken, which its example shows where it has one: names stand in order in what is
/// declared and certified. Each rule that is broken is in the list, with some example. A rule has one exactly where its
/// fault is one that a tree shows.
pub fn findings_are_exactly_the_broken_rules()
    ensures broken { (machine : Scope) (declared : Declared) (certificate : Certificate)
        (finding : Finding) → HoldsForDeclared IsOrdered declared
        → HoldsForCertificate IsOrdered certificate → Stands machine declared certificate finding
        → IsBroken machine declared certificate finding }
    ensures listed { (machine : Scope) (declared : Declared) (certificate : Certificate)
        (finding : Finding) → IsBroken machine declared certificate finding
        → (example : Option Tree)
        × Stands machine declared certificate (record finding { example = example }) }
    ensures shown { (machine : Scope) (declared : Declared) (certificate : Certificate)
        (finding : Finding) → Stands machine declared certificate finding
        → is_some finding.example ≡ has_example finding.fault }
{}
