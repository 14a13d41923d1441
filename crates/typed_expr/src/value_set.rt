//! Sets of values.

ghost use Rattle.std.specs.Prelude.{◌≡◌, ◌≤◌, ◌<◌, ◌↔◌, ⊤, [], MatchOption, MatchBool, IsTrue, Contains, OnOk, IfOk, IfErr, length, true, false, Option};
ghost use Rattle.std.specs.List.Sorted.{IsPartitionPoint};
ghost use Rattle.domains.specs.Values.{is_before, IsAscending};
ghost use Rattle.domains.specs.declared.Value.{Value};
ghost use Rattle.typed_expr.specs.Sets.{HasExactly, Gathers, AddsValue, Inserts, RefusesValue, GoesAt, AtLimit};

use ar_base::Memory;
use domains::Value;
use smallvec::SmallVec;
use std::alloc::Global;
use std::marker::Model;

/// Values in ascending order, none of them twice.
///
/// Up to four of them need no allocation.
#[derive(Drop)]
pub struct ValueSet {
    items: SmallVec<Value, 4>,
}

impl Model for ValueSet {
    ghost use Rattle.domains.specs.Values.{IsAscending};
    ghost use Rattle.typed_expr.specs.Sets.{Values};

    ghost Value = { Values };

    ghost view = { λ s. s.items.items };

    ghost invariant = { λ s. IsAscending s.items.items };
}

// Why a set was not made: it has too many values, or memory was refused.
#[derive(Clone, Copy, Drop)]
pub(crate) enum Stop {
    TooMany,
    NoMemory(Memory),
}

impl From<Memory> for Stop {
    ghost use Rattle.std.specs.Prelude.{◌≡◌};
    ghost use Rattle.typed_expr.specs.declared.value_set.Stop.TheVariants.{NoMemory};

    ghost from_gives = { λ memory stop. stop ≡ NoMemory memory };

    fn from(memory: Memory) -> Self {
        Stop::NoMemory(memory)
    }
}

impl ValueSet {
    /// The values in ascending order.
    pub fn values(&self) -> &[Value]
        ensures values { result.now ≡ self.now }
        ensures ascending { IsAscending result.now }
    {
        self.items.as_slice()
    }

    // The empty set.
    pub(crate) fn new(alloc: Global) -> ValueSet
        ensures { result ≡ [] }
    {
        ValueSet {
            items: SmallVec::new(alloc),
        }
    }

    // Whether the set has no value.
    pub(crate) fn is_empty(&self) -> bool
        ensures { IsTrue result → self.now ≡ [] }
    {
        self.values().is_empty()
    }

    // Whether the set has the value.
    pub(crate) fn has(&self, v: Value) -> bool
        ensures { IsTrue result ↔ Contains self.now v }
    {
        has_value(self.items.as_slice(), v)
    }

    // Puts a value in, within the limit where there is one.
    pub(crate) fn put(&mut self, v: Value, most: Option<u32>) -> Result<(), Stop>
        ensures ok { OnOk result (Inserts most self.old v self.new) }
        ensures err { IfErr result (RefusesValue most self.old v) }
    {
        let Some(place) = place_of(v, self.items.as_slice()) else {
            return Ok(());
        };
        if is_full(self.items.len(), most) {
            return Err(Stop::TooMany);
        }
        match self.items.insert(place, v) {
            Ok(()) => Ok(()),
            Err(failed) => Err(Stop::NoMemory(Memory::from(failed))),
        }
    }
}

// Whether the value is one of these.
pub(crate) fn has_value(values: &[Value], v: Value) -> bool
    ensures { IsTrue result ↔ Contains values.now v }
{
    values.contains(&v)
}

// Where the value goes in, unless it is there.
pub(crate) fn place_of(v: Value, values: &[Value]) -> Option<usize>
    requires { IsAscending values.now }
    ensures { MatchOption result (Contains values.now v) (GoesAt values.now v) }
{
    if is_past(v, values) {
        return Some(values.len());
    }
    let place = first_not_before(v, values);
    match values.get(place) {
        Some(x) => if before(v, *x) { Some(place) } else { None },
        None => Some(place),
    }
}

// Whether all of the values come before this one: the last of them does, if there is one. So a list that ascends is put in
// without a search.
fn is_past(v: Value, values: &[Value]) -> bool
    requires { IsAscending values.now }
    ensures { IsTrue result → GoesAt values.now v (length values.now) }
{
    match values.last() {
        Some(last) => before(*last, v),
        None => true,
    }
}

// How many of the values come before this one.
fn first_not_before(v: Value, values: &[Value]) -> usize
    requires { IsAscending values.now }
    ensures bound { result ≤ length values.now }
    ensures place { IsPartitionPoint (λ x. is_before x v ≡ true)
        (λ x. is_before x v ≡ false) values.now result }
{
    let mut low = 0;
    let mut high = values.len();
    while low < high {
        let middle = low + (high - low) / 2;
        if before(values[middle], v) {
            low = middle + 1;
        } else {
            high = middle;
        }
    }
    low
}

// Whether a set of so many values may have no more.
fn is_full(len: usize, most: Option<u32>) -> bool
    ensures { MatchBool result (AtLimit most (λ n. n ≤ len)) (MatchOption most ⊤ (λ n. len < n)) }
{
    match most {
        Some(most) => len >= most as usize,
        None => false,
    }
}

// Whether a value comes before another.
pub(crate) fn before(a: Value, b: Value) -> bool
    ensures { result ≡ is_before a b }
{
    match (a, b) {
        (Value::Truth(a), Value::Truth(b)) => !a && b,
        (Value::Truth(_), _) => true,
        (Value::Whole(_), Value::Truth(_)) => false,
        (Value::Whole(a), Value::Whole(b)) => a < b,
        (Value::Whole(_), Value::Symbol(_)) => true,
        (Value::Symbol(a), Value::Symbol(b)) => a < b,
        (Value::Symbol(_), _) => false,
    }
}
