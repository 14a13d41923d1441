//! The searches for too many possible values.

ghost use Rattle.std.specs.Prelude.{◌≡◌, ℕ, length, IfOk};
ghost use Rattle.typed_expr.specs.Possible.{IsWide};
ghost use Rattle.typed_expr.specs.declared.expr.Expr.{out-Expr};
ghost use Rattle.ar_meaning.specs.Facts.{Allows};
ghost use Rattle.ar_firing.specs.Rules.{AssignIsWide};
ghost use Rattle.gts_core.specs.View.{net_of, numbered, assign_of};
ghost use Rattle.gts_core.specs.Sound.{IsSound};
ghost use Rattle.gts_core.specs.Rows.{AreDomains, TestSays};
ghost use Rattle.mode_search.specs.Events.{IsLeastNumber};
ghost use Rattle.mode_search.specs.Wide.{IsSomeWide, IsWideFlow, IsWideObserver, IsFirstWide};
ghost use Rattle.ar_base.specs.Least.{least_with};

use ar_base::{Memory, VarId};
use gts_core::{Assign, Domains, GtsParts, domains_of};
use std::alloc::Global;
use typed_expr::{Budget, Expr, possible_values};

/// A flow or an observer with too many possible values.
#[derive(Clone, Copy)]
pub enum Wide {
    /// The flow of this number.
    Flow(u32),
    /// The observer of this number.
    Observer(u32),
}

/// The least flow to which an assertion assigns an expression, or under a condition, of which a subexpression or a step of
/// a fold has more than 64 possible values, or else the first such observer, or None where there is none. Each expression
/// is looked at once. The error is want of memory.
pub fn first_wide(alloc: Global, parts: &GtsParts) -> Result<Option<Wide>, Memory>
    requires { IsSound parts.now }
    ensures { IfOk result (IsFirstWide parts.now) }
{
    let domains = domains_of(alloc, parts)?;
    let mut budget = Budget::for_test();
    if let Some(flow) = least_flow(alloc, parts, &domains, &mut budget)? {
        return Ok(Some(Wide::Flow(flow)));
    }
    match first_observer(alloc, parts, &domains, &mut budget)? {
        Some(observer) => Ok(Some(Wide::Observer(observer))),
        None => Ok(None),
    }
}

// The least flow to which an assertion assigns too many possible values.
fn least_flow(
    alloc: Global,
    parts: &GtsParts,
    domains: &Domains,
    budget: &mut Budget,
) -> Result<Option<u32>, Memory>
    requires { AreDomains parts.now (length parts.now.variables.items) domains.now.rows.items }
    ensures { IfOk result (IsLeastNumber (IsWideFlow parts.now (length parts.now.assigns.items))) }
{
    let mut least = None;
    for assign in &parts.assigns {
        let wide = is_assign_wide(alloc, assign, domains, budget)?;
        least = least_with(least, wide, assign.target.n);
    }
    Ok(least)
}

// The first observer with too many possible values.
fn first_observer(
    alloc: Global,
    parts: &GtsParts,
    domains: &Domains,
    budget: &mut Budget,
) -> Result<Option<u32>, Memory>
    requires sound { IsSound parts.now }
    requires domains { AreDomains parts.now (length parts.now.variables.items)
        domains.now.rows.items }
    ensures { IfOk result (IsLeastNumber (IsWideObserver parts.now)) }
{
    for (n, observer) in parts.observers.iter().enumerate() {
        let wide = is_wide(alloc, &observer.value, domains, budget)?;
        if wide {
            return Ok(Some(n as u32));
        }
    }
    Ok(None)
}

// Whether an assignment's expression or one of its conditions has too many possible values.
fn is_assign_wide(
    alloc: Global,
    assign: &Assign,
    domains: &Domains,
    budget: &mut Budget,
) -> Result<bool, Memory>
    ensures { IfOk result (TestSays domains.now.rows.items
        (λ p. AssignIsWide (net_of p) (assign_of assign.now))) }
{
    let wide = is_wide(alloc, &assign.value, domains, budget)?;
    if wide {
        return Ok(true);
    }
    is_some_wide(alloc, &assign.when, domains, budget)
}

// Whether one of these conditions has too many possible values.
fn is_some_wide(
    alloc: Global,
    conditions: &[(Expr<VarId>, bool)],
    domains: &Domains,
    budget: &mut Budget,
) -> Result<bool, Memory>
    ensures { IfOk result (TestSays domains.now.rows.items (λ p. IsSomeWide p conditions.now)) }
{
    for (test, _) in conditions {
        let wide = is_wide(alloc, test, domains, budget)?;
        if wide {
            return Ok(true);
        }
    }
    Ok(false)
}

// Whether a subexpression or a step of a fold has more than 64 possible values.
fn is_wide(
    alloc: Global,
    expr: &Expr<VarId>,
    domains: &Domains,
    budget: &mut Budget,
) -> Result<bool, Memory>
    ensures { IfOk result (TestSays domains.now.rows.items
        (λ p. IsWide (Allows (net_of p)) 64 (out-Expr ℕ (numbered expr.now)))) }
{
    let found = possible_values(alloc, expr, domains, 64, budget)?;
    Ok(found.is_none())
}

// The lesser of what was found and the number, where it counts.
fn least_with(least: Option<u32>, counts: bool, number: u32) -> Option<u32>
    ensures { result ≡ least_with least counts number }
{
    if !counts {
        return least;
    }
    match least {
        Some(n) => Some(if number < n { number } else { n }),
        None => Some(number),
    }
}
