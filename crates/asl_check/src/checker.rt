//! Checking a certificate against a machine and its declared shapes.

ghost use Rattle.std.specs.Prelude.{◌≡◌, ◌↔◌, IfOk, IsSome};
ghost use Rattle.std.specs.List.{All};
ghost use Rattle.asl_model.specs.RecordShapes.{HoldsForCertificate, HoldsForDeclared};
ghost use Rattle.asl_model.specs.Shape as model;
ghost use Rattle.asl_model.specs.Verdict.{IsRight};
ghost use Rattle.asl_numbered.specs.Expansion.{Keeps};
ghost use Rattle.asl_machine_table.specs.Table.{scope_in, table_view};
ghost use Rattle.asl_records.specs.Numbered.{AreWithin, numbered_view};
ghost use Rattle.asl_records.specs.View.{declared_view};
ghost use Rattle.asl_check.specs.Checked.{IsOfFirst, IsVerdict};
ghost use Rattle.asl_check.specs.Numbers.{IsWithin, certificate_of};
ghost use Rattle.asl_check.specs.Told.{listed, TellsFirst};
ghost use Rattle.asl_check.specs.View.{findings_of, verdict_view, IsLocated, TellsMissing};

use crate::noting::{note_first, told};
use crate::ordered::names_in_order;
use crate::telling::tell_each;
use crate::verdicts::{Located, Verdict};
use asl_machine_table::Machine;
use asl_model::shape_laws::findings_are_exactly_the_broken_rules;
use asl_numbered::Shapes;
use asl_records::{Certificate, Declared, NumberedCertificate, StateNumbers, number_certificate};
use asl_shape::Shape;
use asl_tree::OutOfMemory;
use std::alloc::Global;
use std::collections::BTreeMap;

/// What is checked: the certificate's numbers stand in a table, and so does that of the shape of no tree.
#[derive(Clone, Copy, Drop)]
pub(crate) struct Checker<'c> {
    pub(crate) alloc: Global,
    pub(crate) machine: &'c Machine,
    pub(crate) declared: &'c Declared,
    pub(crate) output: usize,
    pub(crate) states: &'c BTreeMap<String, StateNumbers>,
    pub(crate) never: usize,
}

/// Checks the certificate: Yes where no rule is broken, else No with one broken rule of each name that has one, and
/// with an example, a tree that shows it to be broken. Of several broken rules of a name the first is told: the rules
/// are those on the states' entries and Tasks, of entries without a state, of declared tasks without a Task, of the
/// start, and then those on what flows through the states, in the order of the walk through each.
///
/// Of a comparison the example is a tree that flows there, by its shape, and lacks the shape that it is compared with;
/// of a path that may name nothing it is a tree of the shape in which it was looked up where it names nothing. The
/// faults `StartInput`, `PayloadNotTaken`, `OutputNotCertified`, `NextInput`, `ScopeOutput`, `BranchInput`,
/// `CatchInput` and `PathMayBeMissing` have one, and no other has. An example is made only where its rule is told.
/// Refuses only where an allocation was refused: room for a large example is asked for before any of it is made.
pub fn check(
    alloc: Global,
    machine: &Machine,
    declared: &Declared,
    certificate: &Certificate,
) -> Result<Verdict, OutOfMemory>
    ensures verdict { IfOk result (IsVerdict machine.now declared.now certificate.now) }
    ensures first { IfOk result (IsOfFirst machine.now declared.now certificate.now) }
{
    let mut numbered = number_certificate(alloc, certificate)?;
    check_numbered(alloc, machine, declared, &mut numbered)
}

/// Checks the certificate as [`check`] does. Further shapes may stand in its table afterwards, also where memory runs
/// out; each that stood there keeps its number, and the certificate's own numbers are the same.
pub fn check_numbered(
    alloc: Global,
    machine: &Machine,
    declared: &Declared,
    certificate: &mut NumberedCertificate,
) -> Result<Verdict, OutOfMemory>
    requires within { AreWithin certificate.old }
    ensures verdict { IfOk result (λ verdict. IsRight (scope_in machine.now)
        (declared_view declared.now) (numbered_view certificate.old) (verdict_view verdict)) }
    ensures first { IfOk result (λ verdict. TellsFirst
        (listed (table_view machine.now) (declared_view declared.now)
        (numbered_view certificate.old)) (verdict_view verdict)) }
    ensures same { numbered_view certificate.new ≡ numbered_view certificate.old }
    ensures within { AreWithin certificate.new }
    ensures keeps { Keeps certificate.old.shapes certificate.new.shapes }
    ensures output { certificate.new.output ≡ certificate.old.output }
    ensures states { certificate.new.states ≡ certificate.old.states }
{
    let never = certificate.shapes.add(&Shape::Never)?;
    let checker = Checker {
        alloc,
        machine,
        declared,
        output: certificate.output,
        states: &certificate.states,
        never,
    };
    checker.verdict(&mut certificate.shapes)
}

/// Finds every broken rule of the certificate, and not only the first of each name: in the order in which [`check`] goes
/// over them, each with its example, if its fault has one. A finding that a path may name nothing tells that path, which
/// names nothing in the example, and no other finding tells one. Further shapes may stand in the table afterwards, also
/// where memory runs out; each that stood there keeps its number, and the certificate's own numbers are the same.
pub fn find_all(
    alloc: Global,
    machine: &Machine,
    declared: &Declared,
    certificate: &mut NumberedCertificate,
) -> Result<Vec<Located>, OutOfMemory>
    requires within { AreWithin certificate.old }
    ensures listed { IfOk result (λ all. findings_of all.items
        ≡ listed (table_view machine.now) (declared_view declared.now)
        (numbered_view certificate.old)) }
    ensures located { IfOk result (λ all. All IsLocated all.items) }
    ensures exactly { IfOk result
        (λ all. All (λ f. IsSome f.path ↔ TellsMissing f.finding) all.items) }
    ensures same { numbered_view certificate.new ≡ numbered_view certificate.old }
    ensures within { AreWithin certificate.new }
    ensures keeps { Keeps certificate.old.shapes certificate.new.shapes }
    ensures output { certificate.new.output ≡ certificate.old.output }
    ensures states { certificate.new.states ≡ certificate.old.states }
{
    let never = certificate.shapes.add(&Shape::Never)?;
    let checker = Checker {
        alloc,
        machine,
        declared,
        output: certificate.output,
        states: &certificate.states,
        never,
    };
    checker.findings(&mut certificate.shapes)
}

impl Checker<'_> {
    /// Every broken rule, with the tree that shows it, if one does, and the path that names nothing there, if it is one.
    fn findings(&self, shapes: &mut Shapes) -> Result<Vec<Located>, OutOfMemory>
        requires within { IsWithin shapes.old self.now }
        ensures listed { IfOk result (λ all. findings_of all.items
            ≡ listed (table_view self.now.machine.now) (declared_view self.now.declared.now)
            (certificate_of shapes.old self.now)) }
        ensures located { IfOk result (λ all. All IsLocated all.items) }
        ensures exactly { IfOk result
            (λ all. All (λ f. IsSome f.path ↔ TellsMissing f.finding) all.items) }
        ensures keeps { Keeps shapes.old shapes.new }
    {
        self.machine.is_shown();
        findings_are_exactly_the_broken_rules();
        let rules = self.list_all(shapes)?;
        tell_each(self.alloc, shapes, &rules)
    }

    /// The verdict on what is checked.
    fn verdict(&self, shapes: &mut Shapes) -> Result<Verdict, OutOfMemory>
        requires within { IsWithin shapes.old self.now }
        ensures verdict { IfOk result (λ verdict. IsRight (scope_in self.now.machine.now)
            (declared_view self.now.declared.now) (certificate_of shapes.old self.now)
            (verdict_view verdict)) }
        ensures first { IfOk result (λ verdict. TellsFirst
            (listed (table_view self.now.machine.now) (declared_view self.now.declared.now)
            (certificate_of shapes.old self.now)) (verdict_view verdict)) }
        ensures keeps { Keeps shapes.old shapes.new }
    {
        self.machine.is_shown();
        findings_are_exactly_the_broken_rules();
        let rules = self.list_all(shapes)?;
        if rules.is_empty() {
            return Ok(Verdict::Yes);
        }
        self.are_in_order(shapes);
        let notes = note_first(self.alloc, shapes, &rules)?;
        let findings = told(self.alloc, notes)?;
        Ok(Verdict::No(findings))
    }

    /// Names of fields stand in order in the shapes that are declared and certified. Looks at those that are declared,
    /// and takes no memory.
    fn are_in_order(&self, shapes: &Shapes)
        ensures declared { HoldsForDeclared model.IsOrdered (declared_view self.now.declared.now) }
        ensures certified { HoldsForCertificate model.IsOrdered
            (certificate_of shapes.now self.now) }
    {
        shapes.are_proper();
        names_in_order(self.declared);
    }
}
