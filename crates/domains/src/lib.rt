//! Values, the domains that variables have, and clamped arithmetic.
#![tactic(auto)]

ghost use Rattle.std.specs.Prelude.{true, false, ◌≡◌, ◌<◌, ◌≤◌, ◌↔◌, ◌≢◌, ◌==◌, ℕ, IsTrue, IsSome, IfOk, IfSome, IfNone, Contains, count_by, nat_lt, length, ◌+ℤ◌, ◌-ℤ◌, ◌*ℤ◌};
ghost use Rattle.std.specs.Int.{saturate_signed, w64};
ghost use Rattle.domains.specs.Domains.{IsDomain, Holds, values_of};
ghost use Rattle.domains.specs.DomainsInside.{IsValueAt, HasMore};
ghost use Rattle.domains.specs.SameInside.{IsSameDomain};
ghost use Rattle.domains.specs.Values.{is_before, truth_of, whole_of};
ghost use Rattle.domains.specs.declared.Value.{Value};
ghost use Rattle.domains.specs.declared.Value.TheVariants.{Truth};
ghost use Rattle.domains.specs.declared.Domain.{Domain};

use std::alloc::AllocError;

/// A truth value, a whole number, or a symbol by its number.
///
/// Values are ordered: false before true, numbers ascending, symbols by their number,
/// and truth values before numbers before symbols.
#[derive(Clone, Copy, PartialEq, Eq, PartialOrd, Ord)]
pub enum Value {
    Truth(bool),
    Whole(i64),
    Symbol(u32),
}

impl Default for Value {
    /// False, which fills unused places of short lists.
    fn default() -> Value
        ensures { result ≡ Truth false }
    {
        Value::Truth(false)
    }
}

impl Value {
    /// The truth value; other values count as false.
    pub fn truth(self) -> bool
        ensures { result ≡ truth_of self }
    {
        match self {
            Value::Truth(b) => b,
            Value::Whole(_) => false,
            Value::Symbol(_) => false,
        }
    }

    /// The whole number; other values count as 0.
    pub fn whole(self) -> i64
        ensures { result ≡ whole_of self }
    {
        match self {
            Value::Truth(_) => 0,
            Value::Whole(n) => n,
            Value::Symbol(_) => 0,
        }
    }
}

/// The values that a variable may have: at least one and at most 256 of them.
///
/// The symbols stand in the order in which they were declared, none of them twice.
/// A range has both its ends.
#[derive(Drop)]
pub enum Domain {
    Boolean,
    Symbols(Vec<u32>),
    Range(i64, i64),
}

/// The sum of two numbers; a result that is too small or too large becomes the least or the
/// greatest `i64`.
pub fn add(a: i64, b: i64) -> i64
    ensures { result ≡ saturate_signed w64 (a +ℤ b) }
{
    a.saturating_add(b)
}

/// The first number less the second, clamped likewise.
pub fn subtract(a: i64, b: i64) -> i64
    ensures { result ≡ saturate_signed w64 (a -ℤ b) }
{
    a.saturating_sub(b)
}

/// The product of two numbers, clamped likewise.
pub fn multiply(a: i64, b: i64) -> i64
    ensures { result ≡ saturate_signed w64 (a *ℤ b) }
{
    a.saturating_mul(b)
}

/// The laws of domains: a value has one position and a position one value, positions follow the
/// order of values, and what a domain holds is what stands in the list of its values.
pub fn domain_laws()
    ensures one_position { (d : Domain) (v : Value) (p q : ℕ) → IsValueAt d v p → IsValueAt d v q → p ≡ q }
    ensures one_value { (d : Domain) (v w : Value) (p : ℕ) → IsDomain d → Holds d v → Holds d w
        → IsValueAt d v p → IsValueAt d w p → v ≡ w }
    ensures in_order { (d : Domain) (v w : Value) (p q : ℕ) → Holds d v → Holds d w → IsValueAt d v p
        → IsValueAt d w q → is_before v w ≡ true → p < q }
    ensures listed { (d : Domain) (v : Value) → IsDomain d → Holds d v ↔ Contains (values_of d) v }
{}

impl Domain {
    /// A copy of the domain: the same values in the same order. The error is want of memory.
    pub fn copy(&self) -> Result<Domain, AllocError>
        ensures { IfOk result (IsSameDomain self.now) }
    {
        match self {
            Domain::Boolean => Ok(Domain::Boolean),
            Domain::Symbols(symbols) => Ok(Domain::Symbols(symbols.clone()?)),
            Domain::Range(low, high) => Ok(Domain::Range(*low, *high)),
        }
    }

    /// Whether the domain has the value.
    pub fn holds(&self, value: Value) -> bool
        requires { IsDomain self.now }
        ensures { IsTrue result ↔ Holds self.now value }
    {
        match self {
            Domain::Boolean => match value {
                Value::Truth(_) => true,
                Value::Whole(_) => false,
                Value::Symbol(_) => false,
            },
            Domain::Symbols(symbols) => match value {
                Value::Truth(_) => false,
                Value::Whole(_) => false,
                Value::Symbol(s) => symbols.contains(&s),
            },
            Domain::Range(low, high) => match value {
                Value::Truth(_) => false,
                Value::Whole(n) => *low <= n && n <= *high,
                Value::Symbol(_) => false,
            },
        }
    }

    /// How many values of the domain come before this one in the order of values, or None where the
    /// domain does not have it.
    pub fn position(&self, value: Value) -> Option<u32>
        requires { IsDomain self.now }
        ensures found { IfSome result (IsValueAt self.now value) }
        ensures variant { IsSome result ↔ Holds self.now value }
    {
        match self {
            Domain::Boolean => match value {
                Value::Truth(b) => Some(u32::from(b)),
                Value::Whole(_) => None,
                Value::Symbol(_) => None,
            },
            Domain::Symbols(symbols) => match value {
                Value::Truth(_) => None,
                Value::Whole(_) => None,
                Value::Symbol(s) => if symbols.contains(&s) {
                    Some(count_below(symbols, s))
                } else {
                    None
                },
            },
            Domain::Range(low, high) => match value {
                Value::Truth(_) => None,
                Value::Whole(n) => if *low <= n && n <= *high {
                    Some((n - *low) as u32)
                } else {
                    None
                },
                Value::Symbol(_) => None,
            },
        }
    }

    /// The value before which so many values of the domain come, or None where the domain does not
    /// have more.
    pub fn value_at(&self, position: u32) -> Option<Value>
        requires { IsDomain self.now }
        ensures found { IfSome result (λ v. Holds self.now v × IsValueAt self.now v position) }
        ensures variant { IsSome result ↔ HasMore self.now position }
    {
        match self {
            Domain::Boolean => match position {
                0 => Some(Value::Truth(false)),
                1 => Some(Value::Truth(true)),
                _ => None,
            },
            Domain::Symbols(symbols) => match symbol_at(symbols, position) {
                Some(s) => Some(Value::Symbol(s)),
                None => None,
            },
            Domain::Range(low, high) => {
                let n = i64::from(position);
                if n <= *high - *low {
                    Some(Value::Whole(*low + n))
                } else {
                    None
                }
            }
        }
    }
}

// The symbol that has so many symbols below it.
fn symbol_at(symbols: &[u32], position: u32) -> Option<u32>
    requires { length symbols.now ≤ 256 }
    ensures found { IfSome result (λ s. Contains symbols.now s
        × (count_by (λ x. nat_lt x s) symbols.now ≡ position)) }
    ensures none { IfNone result ((s : ℕ) → Contains symbols.now s
        → count_by (λ x. nat_lt x s) symbols.now ≢ position) }
{
    // symbols that ascend stand at their positions
    if let Some(s) = symbols.get(position as usize) {
        if count_below(symbols, *s) == position {
            return Some(*s);
        }
    }
    for s in symbols {
        if count_below(symbols, *s) == position {
            return Some(*s);
        }
    }
    None
}

// How many symbols are below this one.
fn count_below(symbols: &[u32], s: u32) -> u32
    requires { length symbols.now ≤ 256 }
    ensures { result ≡ count_by (λ x. nat_lt x s) symbols.now }
{
    let mut count = 0;
    for x in symbols {
        if *x < s {
            count += 1;
        }
    }
    count
}
