//! Drafts of certificates: what the rounds of an inference come to, and laws about it. Each law is the contract of a public
//! function with an empty body.
#![tactic(auto)]

ghost use Rattle.std.specs.Prelude.{◌≡◌, ℕ, [], Ok, Some};
ghost use Rattle.asl_model.specs.Certificate.{Declared, IsClosed};
ghost use Rattle.asl_model.specs.Finding.{findings};
ghost use Rattle.asl_model.specs.Machine.{Scope};
ghost use Rattle.asl_model.specs.Numbering.{Table, table_of, IsWellNamed};
ghost use Rattle.asl_model.specs.RecordShapes.{HoldsForCertificate, HoldsForDeclared};
ghost use Rattle.asl_model.specs.Shape.{IsOrdered, Shape};
ghost use Rattle.asl_draft_laws.specs.Drafts.{Draft, Row, Settles, Target, certificate_of, taken_at, walked};
ghost use Rattle.asl_draft_laws.specs.Resting.{Memory, Rests, IsPassedBy, IsTakenIn};

/// The draft on which the rounds settle comes to a closed certificate: what flows is inside the join, the join is inside
/// what it is cut to, and that is what stands there.
pub fn settled_drafts_are_closed()
    ensures closed { (machine : Scope) (declared : Declared) (rounds : ℕ) (draft : Draft)
        → IsWellNamed machine → Settles (table_of machine) declared rounds draft
        → IsClosed declared (certificate_of (table_of machine) draft) machine }
{}

/// So it breaks no rule, where names stand in order in what is declared and in what is certified.
pub fn settled_drafts_break_no_rule()
    ensures none { (machine : Scope) (declared : Declared) (rounds : ℕ) (draft : Draft)
        → IsWellNamed machine → Settles (table_of machine) declared rounds draft
        → HoldsForDeclared IsOrdered declared
        → HoldsForCertificate IsOrdered (certificate_of (table_of machine) draft)
        → findings machine declared (certificate_of (table_of machine) draft) ≡ [] }
{}

/// A state that is at rest may be passed over in a round. It stays at rest where a shape changes at which it doesn't look,
/// if all that is remembered to have flowed from it into that shape would change nothing again.
pub fn states_at_rest_may_be_passed_over()
    ensures passed { (table : Table) (declared : Declared) (row : Row) (known : Memory)
        (draft : Draft) → Rests table declared row known draft
        → walked table declared row draft ≡ Ok draft }
    ensures kept { (table : Table) (declared : Declared) (row : Row) (known : Memory)
        (target : Target) (s : Shape) (draft : Draft) → IsPassedBy row.number target
        → IsTakenIn row.number known target (taken_at (Some target) s draft)
        → Rests table declared row known draft
        → Rests table declared row known (taken_at (Some target) s draft) }
{}
