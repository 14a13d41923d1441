//! The domains of the variables as facts.

ghost use Rattle.std.specs.Prelude.{◌≡◌, ◌<◌, ◌+◌, true, false, pos, nat_abs, ◌+ℤ◌, ◌-ℤ◌, ◌≤ℤ◌, ◌<ℤ◌, map, length, IfOk};
ghost use Rattle.std.specs.List.{range_with_len};
ghost use Rattle.domains.specs.Domains.{IsDomain, values_of};
ghost use Rattle.domains.specs.declared.Value.TheVariants.{Truth, Whole, Symbol};
ghost use Rattle.gts_core.specs.Sound.{IsSound};
ghost use Rattle.gts_core.specs.Rows.{AreDomains};

use crate::GtsParts;
use ar_base::{Memory, VarId};
use domains::{Domain, Value};
use std::alloc::Global;
use typed_expr::{Env, ValueKind, first_of, kind_of, row_at};

/// The values of the domain of each variable, by number. As facts, each variable has all values of its domain.
#[derive(Drop)]
pub struct Domains {
    /// A row for each variable: the values of its domain, in the domain's order.
    pub rows: Vec<Vec<Value>>,
}

impl Env<VarId> for Domains {
    ghost use Rattle.typed_expr.specs.Kinds.{kind_of};
    ghost use Rattle.typed_expr.specs.Rows.{first_of_row, known_row_at};

    ghost value_at = { λ t x. first_of_row (known_row_at t.rows.items x.n) };

    ghost facts_at = { λ t x. known_row_at t.rows.items x.n };

    ghost kind_at = { λ t x. kind_of (first_of_row (known_row_at t.rows.items x.n)) };

    fn value(&self, v: &VarId) -> Value {
        first_of(self.facts(v))
    }

    fn facts(&self, v: &VarId) -> &[Value] {
        row_at(&self.rows, v.n)
    }

    fn kind(&self, v: &VarId) -> ValueKind {
        kind_of(self.value(v))
    }
}

/// The values of the domains of all variables, in time and memory linear in their number. The error is want of memory.
pub fn domains_of(alloc: Global, parts: &GtsParts) -> Result<Domains, Memory>
    requires { IsSound parts.now }
    ensures { IfOk result (λ found. AreDomains parts.now (length parts.now.variables.items)
        found.rows.items) }
{
    let mut rows = Vec::new(alloc);
    for variable in &parts.variables {
        let row = values(alloc, &variable.domain)?;
        rows.push(row)?;
    }
    Ok(Domains { rows })
}

// The values of a domain.
fn values(alloc: Global, domain: &Domain) -> Result<Vec<Value>, Memory>
    requires { IsDomain domain.now }
    ensures { IfOk result (λ found. found.items ≡ values_of domain.now) }
{
    match domain {
        Domain::Boolean => Ok(Vec::from_slice(alloc, &[Value::Truth(false), Value::Truth(true)])?),
        Domain::Symbols(symbols) => all_symbols(alloc, symbols),
        Domain::Range(low, high) => between(alloc, *low, *high),
    }
}

// These symbols.
fn all_symbols(alloc: Global, symbols: &[u32]) -> Result<Vec<Value>, Memory>
    ensures { IfOk result (λ found. found.items ≡ map Symbol symbols.now) }
{
    let mut found = Vec::new(alloc);
    for symbol in symbols {
        found.push(Value::Symbol(*symbol))?;
    }
    Ok(found)
}

// The numbers from the first to the last.
fn between(alloc: Global, low: i64, high: i64) -> Result<Vec<Value>, Memory>
    requires ordered { low ≤ℤ high }
    requires few { high <ℤ (low +ℤ pos 256) }
    ensures { IfOk result (λ found. found.items
        ≡ map (λ k. Whole (low +ℤ pos k)) (range_with_len 0 (nat_abs (high -ℤ low) + 1))) }
{
    let mut found = Vec::new(alloc);
    let count = (high - low) as u32 + 1;
    for k in 0..count {
        found.push(Value::Whole(low + i64::from(k)))?;
    }
    Ok(found)
}
