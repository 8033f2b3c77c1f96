//! All that is wrong with declared shapes.
ghost use Rattle.std.specs.Prelude.{◌≡◌, ◌∷◌, [], IfOk, OnOk, Some, codes, false, is_some, map};
ghost use Rattle.serde_json.specs.Data.{object};
ghost use Rattle.serde_json.specs.Find.{as_object};
ghost use Rattle.asl_model.specs.Records as model;
ghost use Rattle.asl_model.specs.Records.{declared_complaints, declared_reading, entries_complaints, object_complaints, task_rows};
ghost use Rattle.asl_shape.specs.Spelled.{tree_there};
ghost use Rattle.asl_tree.specs.View.{entries_view, view};
ghost use Rattle.asl_records.specs.Parts.{complaint_of, entries_row, field_complaints, foreign_complaints, members_there, shape_row, tree_complaints};
ghost use Rattle.asl_records.specs.Values.{For, IsValue, as_members, as_value, value_in, value_there};
ghost use Rattle.asl_records.specs.View.{complaint_view, record_fault_view};
ghost use Rattle.asl_complaints.specs.Told.{TellsComplaints};

use crate::shapes::shape_faults;
use asl_records::{RecordFault, RecordRefusal};
use asl_shape::levels::{is_among, member};
use asl_tree::{OutOfMemory, Tree};
use std::alloc::Global;
use std::collections::BTreeMap;

/// All that is wrong with a tree as declared shapes: with the fields of the whole, one after another, with those that it may
/// not have, and so with the entry of each task. Of a shape each rule that it breaks is one complaint ([`shape_faults`]). There
/// is none where the tree reads as declared shapes. Refuses only where an allocation was refused.
pub fn complaints(alloc: Global, tree: &Tree) -> Result<Vec<RecordRefusal>, OutOfMemory>
    ensures { IfOk result (λ told. For (IsValue (view tree.now))
        (λ v. map complaint_view told.items ≡ map Some (declared_complaints v))) }
{
    tell_all(alloc, tree)
}

/// The same, by the one value that the tree stands for.
fn tell_all(alloc: Global, tree: &Tree) -> Result<Vec<RecordRefusal>, OutOfMemory>
    ensures { IfOk result (λ told. map complaint_view told.items
        ≡ map Some (declared_complaints (as_value (view tree.now)))) }
{
    let mut told = Vec::new(alloc);
    tell_record(alloc, tree, &mut told)?;
    Ok(told)
}

/// Tells what is wrong with declared shapes.
fn tell_record(alloc: Global, tree: &Tree, told: &mut Vec<RecordRefusal>) -> Result<(), OutOfMemory>
    ensures { OnOk result (TellsComplaints told.old.items told.new.items
        (declared_complaints (as_value (view tree.now)))) }
{
    let whole = Entry { alloc, name: "" };
    match tree {
        Tree::Object(fields) => tell_fields(&whole, fields, told),
        Tree::Null | Tree::Bool(_) | Tree::Int(_) | Tree::Text(_) | Tree::List(_) => {
            whole.tell(RecordFault::NotObject, "", told)
        }
    }
}

/// Tells what is wrong with the fields of declared shapes.
fn tell_fields(
    whole: &Entry<'_>,
    fields: &BTreeMap<String, Tree>,
    told: &mut Vec<RecordRefusal>,
) -> Result<(), OutOfMemory>
    requires whole { whole.now.name.now ≡ [] }
    ensures { OnOk result (TellsComplaints told.old.items told.new.items
        (declared_complaints (object (as_members (entries_view fields.now.entries))))) }
{
    whole.tell_shape("input", true, fields, told)?;
    let tasks = member(fields, "tasks");
    tell_kind_of_tasks(whole, tasks, told)?;
    whole.tell_foreign(fields, &["input", "tasks"], told)?;
    tell_tasks(whole.alloc, tasks, told)
}

/// Tells that the value of `tasks` is no object, where there is another one.
fn tell_kind_of_tasks(
    whole: &Entry<'_>,
    tasks: Option<&Tree>,
    told: &mut Vec<RecordRefusal>,
) -> Result<(), OutOfMemory>
    ensures { OnOk result (TellsComplaints told.old.items told.new.items
        (field_complaints declared_reading whole.now.name.now (entries_row (codes "tasks") false)
        (value_there tasks.entry))) }
{
    match tasks {
        Some(tree) if !is_object(tree) => whole.tell(RecordFault::WrongKind, "tasks", told),
        _ => Ok(()),
    }
}

/// Whether the value is an object.
fn is_object(tree: &Tree) -> bool
    ensures { result ≡ is_some (as_object (as_value (view tree.now))) }
{
    match tree {
        Tree::Object(_) => true,
        Tree::Null | Tree::Bool(_) | Tree::Int(_) | Tree::Text(_) | Tree::List(_) => false,
    }
}

/// Tells what is wrong with the tasks, where they are an object.
fn tell_tasks(
    alloc: Global,
    tasks: Option<&Tree>,
    told: &mut Vec<RecordRefusal>,
) -> Result<(), OutOfMemory>
    ensures { OnOk result (TellsComplaints told.old.items told.new.items
        (entries_complaints declared_reading task_rows (members_there (value_there tasks.entry)))) }
{
    let Some(tree) = tasks else {
        return Ok(());
    };
    match tree {
        Tree::Object(entries) => tell_entries(alloc, entries, told),
        Tree::Null | Tree::Bool(_) | Tree::Int(_) | Tree::Text(_) | Tree::List(_) => Ok(()),
    }
}

/// Tells what is wrong with the entry of each task.
fn tell_entries(
    alloc: Global,
    entries: &BTreeMap<String, Tree>,
    told: &mut Vec<RecordRefusal>,
) -> Result<(), OutOfMemory>
    ensures { OnOk result (TellsComplaints told.old.items told.new.items
        (entries_complaints declared_reading task_rows
        (as_members (entries_view entries.now.entries)))) }
{
    for (name, task) in entries.iter() {
        let entry = Entry { alloc, name };
        entry.tell_task(task, told)?;
    }
    Ok(())
}

/// The whole, which has an empty name, or the entry of a task.
#[derive(Drop)]
struct Entry<'n> {
    alloc: Global,
    name: &'n str,
}

impl Entry<'_> {
    /// Tells what is wrong with the entry of a task.
    fn tell_task(&self, tree: &Tree, told: &mut Vec<RecordRefusal>) -> Result<(), OutOfMemory>
        ensures { OnOk result (TellsComplaints told.old.items told.new.items
            (object_complaints declared_reading self.now.name.now task_rows
            (as_value (view tree.now)))) }
    {
        match tree {
            Tree::Object(fields) => self.tell_task_fields(fields, told),
            Tree::Null | Tree::Bool(_) | Tree::Int(_) | Tree::Text(_) | Tree::List(_) => {
                self.tell(RecordFault::NotObject, "", told)
            }
        }
    }

    /// Tells what is wrong with its fields.
    fn tell_task_fields(
        &self,
        fields: &BTreeMap<String, Tree>,
        told: &mut Vec<RecordRefusal>,
    ) -> Result<(), OutOfMemory>
        ensures { OnOk result (TellsComplaints told.old.items told.new.items
            (object_complaints declared_reading self.now.name.now task_rows
            (object (as_members (entries_view fields.now.entries))))) }
    {
        self.tell_shape("takes", false, fields, told)?;
        self.tell_shape("gives", true, fields, told)?;
        self.tell_foreign(fields, &["takes", "gives"], told)
    }

    /// Tells what is wrong with the shape in a field, or that the field is absent.
    fn tell_shape(
        &self,
        field: &'static str,
        required: bool,
        fields: &BTreeMap<String, Tree>,
        told: &mut Vec<RecordRefusal>,
    ) -> Result<(), OutOfMemory>
        ensures { OnOk result (TellsComplaints told.old.items told.new.items
            (field_complaints declared_reading self.now.name.now (shape_row field.now required)
            (value_in field.now fields.now.entries))) }
    {
        match member(fields, field) {
            Some(tree) => self.tell_spelling(field, tree, told),
            None if required => self.tell(RecordFault::MissingField, field, told),
            None => Ok(()),
        }
    }

    /// Tells what is wrong with the spelling of a shape in a field.
    fn tell_spelling(
        &self,
        field: &'static str,
        tree: &Tree,
        told: &mut Vec<RecordRefusal>,
    ) -> Result<(), OutOfMemory>
        ensures { OnOk result (TellsComplaints told.old.items told.new.items
            (tree_complaints declared_reading self.now.name.now field.now (view tree.now))) }
    {
        let faults = shape_faults(self.alloc, tree)?;
        for fault in faults {
            self.tell(RecordFault::BadShape(fault), field, told)?;
        }
        Ok(())
    }

    /// Tells each field that isn't one of those known.
    fn tell_foreign(
        &self,
        fields: &BTreeMap<String, Tree>,
        known: &[&str],
        told: &mut Vec<RecordRefusal>,
    ) -> Result<(), OutOfMemory>
        ensures { OnOk result (TellsComplaints told.old.items told.new.items
            (foreign_complaints self.now.name.now (map (λ k. k.now) known.now)
            (as_members (entries_view fields.now.entries)))) }
    {
        for (field, _) in fields.iter() {
            if !is_among(field, known) {
                self.tell(RecordFault::UnknownField, field, told)?;
            }
        }
        Ok(())
    }

    /// Tells a fault at a field.
    fn tell(
        &self,
        fault: RecordFault,
        field: &str,
        told: &mut Vec<RecordRefusal>,
    ) -> Result<(), OutOfMemory>
        ensures { (f : model.RecordFault) → record_fault_view fault ≡ Some f
            → OnOk result (TellsComplaints told.old.items told.new.items
            (complaint_of self.now.name.now field.now f ∷ [])) }
    {
        let name = String::from_str(self.alloc, self.name)?;
        let field = String::from_str(self.alloc, field)?;
        told.push(RecordRefusal { fault, name, field })?;
        Ok(())
    }
}
