//! Laws about inferring certificates: each is the contract of a public function with an empty body.

ghost use Rattle.std.specs.Prelude.{◌≡◌, ℕ, Contains, IsTrue, List, Option, Some, slice_get};
ghost use Rattle.asl_model.specs.Names.{StateName};
ghost use Rattle.asl_model.specs.Machine.{Kind, Scope, Settings, State};
ghost use Rattle.asl_model.specs.Shape.{Shape};
ghost use Rattle.asl_model.specs.Certificate.{Certificate, Declared, StateShapes, certified};
ghost use Rattle.asl_model.specs.Finding.{Breach, Finding, Stands, flow_breaches, input_to_compare, surrounded_by};
ghost use Rattle.asl_model.specs.FindingRules.{HasState};
ghost use Rattle.asl_model.specs.Inference.{IsBrokenAnyway, IsWidest, StandsForSome, finding_of, is_of_machine};
ghost use Rattle.asl_model.specs.Numbering.{IsWellNamed, table_of};

/// Each finding on the widest certificate is of the machine or of what is declared: nothing that flows is too wide for
/// it, and no entry is missing or names no state.
pub fn the_widest_certificate_has_no_fault_of_its_own()
    ensures of_machine { (machine : Scope) (declared : Declared) (certificate : Certificate)
        → IsWellNamed machine → IsWidest (table_of machine) certificate → (finding : Finding)
        → Stands machine declared certificate finding → IsTrue (is_of_machine finding.fault) }
{}

/// A broken rule on what flows through a state with an entry is a finding that stands: for a state of the machine in a
/// scope with its certified end; and for a state of its table, without the states of its scopes, where the rule is
/// broken whatever is certified elsewhere. So it stands for some certificate, whatever the entry is.
pub fn a_broken_rule_of_a_state_stands()
    ensures in_machine { (machine : Scope) (declared : Declared) (certificate : Certificate)
        (n : StateName) (settings : Settings) (kind : Kind) (end : Option Shape)
        (entry : StateShapes) (breach : Breach) → HasState machine certificate n settings kind end
        → certified certificate n ≡ Some entry
        → Contains (flow_breaches
        (surrounded_by declared (input_to_compare machine certificate) end n entry) settings kind)
        breach → Stands machine declared certificate (finding_of n breach) }
    ensures in_table { (machine : Scope) (declared : Declared) (certificate : Certificate) (i : ℕ)
        (n : StateName) (state : State) (entry : StateShapes) (breach : Breach)
        → slice_get (table_of machine).names i ≡ Some n
        → slice_get (table_of machine).states i ≡ Some state → certified certificate n ≡ Some entry
        → IsBrokenAnyway declared n state entry breach
        → Stands machine declared certificate (finding_of n breach) }
    ensures for_some { (machine : Scope) (declared : Declared) (i : ℕ) (n : StateName)
        (state : State) (entry : StateShapes) (breach : Breach)
        → slice_get (table_of machine).names i ≡ Some n
        → slice_get (table_of machine).states i ≡ Some state
        → IsBrokenAnyway declared n state entry breach
        → StandsForSome machine declared (finding_of n breach) }
{}
