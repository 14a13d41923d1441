//! The modes of a tree, each with the number of the family of one set: the events on the path to it.

ghost use Rattle.std.specs.Prelude.{◌≡◌, Some, IsSome, OnOk};
ghost use Rattle.std.specs.HashMap.{Updates};
ghost use Rattle.gate_diagrams.specs.Paths.{key_of as key, same_key, number_at};

use ar_base::Memory;
use domains::Value;
use std::collections::HashMap;
use zdd_nodes::NodeId;

// The numbers of modes by their keys.
pub(crate) type Modes = HashMap<(u32, i64), NodeId>;

/// The number of a mode that the table has.
pub(crate) fn number_of(modes: &Modes, mode: Value) -> NodeId
    requires { IsSome (number_at modes.now mode) }
    ensures { number_at modes.now mode ≡ Some result }
{
    match modes.get(&key_of(mode)) {
        Some(number) => *number,
        None => unreachable!(),
    }
}

// The mode as a key: no two modes have one key.
fn key_of(mode: Value) -> (u32, i64)
    ensures { result ≡ key mode }
{
    match mode {
        Value::Truth(truth) => (0, i64::from(truth)),
        Value::Whole(number) => (1, number),
        Value::Symbol(symbol) => (2, i64::from(symbol)),
    }
}

/// Puts a mode's number into the table.
pub(crate) fn put(modes: &mut Modes, mode: Value, number: NodeId) -> Result<(), Memory>
    ensures { OnOk result (Updates same_key modes.old modes.new (key mode) (Some number)) }
{
    modes.insert(key_of(mode), number)?;
    Ok(())
}
