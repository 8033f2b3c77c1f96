//! Shapes made of parts that are at hand.
ghost use Rattle.std.specs.Prelude.{◌≡◌, false, IfOk, OnOk, length, string_bytes};
ghost use Rattle.std.specs.BTreeMap.{insert_entry};
ghost use Rattle.std.specs.Rc.{rc_str_bytes};
ghost use Rattle.asl_model.specs.Shape as model;
ghost use Rattle.asl_numbered.specs.Expansion.{shapes_at, fields_at, numbers_in, AreBelow, Keeps, Shows};
ghost use Rattle.asl_numbered.specs.Names.{Name, name_cmp};

use crate::numbers::put_node;
use asl_numbered::{Node, NodeField, Shapes};
use asl_tree::OutOfMemory;
use std::collections::BTreeMap;
use std::rc::RcStr;

/// Inserts the field under that name.
pub fn set_field(
    fields: &mut BTreeMap<RcStr, NodeField>,
    name: &String,
    field: NodeField,
) -> Result<(), OutOfMemory>
    ensures { OnOk result ((key : Name) × (rc_str_bytes key ≡ string_bytes name.now)
        × (fields.new.entries ≡ insert_entry name_cmp fields.old.entries key field)) }
{
    let key = RcStr::from_string(name.clone()?)?;
    drop(fields.insert(key, field)?);
    Ok(())
}

/// The number of the shape of the lists with those first elements and no further one.
pub fn closed_list(shapes: &mut Shapes, first: Vec<usize>) -> Result<usize, OutOfMemory>
    requires first { AreBelow (length shapes.old) first.items }
    ensures shown { IfOk result
        (Shows shapes.new (model.ArrayShape (shapes_at shapes.old first.items) model.Never)) }
    ensures keeps { Keeps shapes.old shapes.new }
{
    let rest = put_node(shapes, Node::Never)?;
    put_node(shapes, Node::List { first, rest })
}

/// The number of the shape of the objects with those fields and no other.
#[tactic(auto, using(asl_numbered::proofs::Expansions::object_refers))]
pub fn closed_object(
    shapes: &mut Shapes,
    fields: BTreeMap<RcStr, NodeField>,
) -> Result<usize, OutOfMemory>
    requires fields { AreBelow (length shapes.old) (numbers_in fields.entries) }
    ensures shown { IfOk result
        (Shows shapes.new (model.ObjectShape (fields_at shapes.old fields.entries) false)) }
    ensures keeps { Keeps shapes.old shapes.new }
{
    let extra = false;
    put_node(shapes, Node::Object { fields, extra })
}
