//! Pairs of a variable and an assignment.

ghost use Rattle.std.specs.Prelude.{◌≡◌, ◌+◌, ◌<◌, ◌≤◌, ℕ, length, IfOk};
ghost use Rattle.std.specs.List.Sorted.{IsNonDecreasingBy};
ghost use Rattle.ar_base.specs.Lists.{IsOneOf, Stands};
ghost use Rattle.flow_propagate.specs.Runs.{Reader, IsStart, AreRuns};

use ar_base::{AssignId, Memory, VarId};
use std::alloc::Global;

/// Pairs of a variable and an assignment, ascending by variable, and where the pairs of each variable stand.
#[derive(Drop)]
pub struct Runs {
    /// The pairs.
    pub pairs: Vec<(VarId, AssignId)>,
    /// For each variable of the system the place where its pairs begin, and last the number of pairs: the pairs of a variable
    /// end where those of the next begin.
    pub starts: Vec<usize>,
    ghost runs: { AreRuns pairs.items starts.items },
}

/// The pairs of a variable, in constant time; none for a number that stands for no variable.
pub fn pairs_of(runs: &Runs, variable: u32) -> &[(VarId, AssignId)]
    ensures among { (r : Reader) → IsOneOf result.now r → IsOneOf runs.now.pairs.items r }
    ensures all { (r : Reader) → IsOneOf runs.now.pairs.items r → r.0.n ≡ variable
        → IsOneOf result.now r }
    ensures exact { (r : Reader) → IsOneOf result.now r → r.0.n ≡ variable }
    ensures short { length result.now ≤ length runs.now.pairs.items }
{
    let place = variable as usize;
    if place + 1 >= runs.starts.len() {
        return &[];
    }
    &runs.pairs[runs.starts[place]..runs.starts[place + 1]]
}

// Where the pairs of each of the first so many variables begin.
pub(crate) fn starts_of(
    alloc: Global,
    pairs: &[(VarId, AssignId)],
    count: usize,
) -> Result<Vec<usize>, Memory>
    requires { IsNonDecreasingBy (λ r. r.0.n) pairs.now }
    ensures long { IfOk result (λ starts. length starts.items ≡ count) }
    ensures each { IfOk result (λ starts. (x start : ℕ) → Stands starts.items x start
        → IsStart pairs.now x start) }
{
    let mut starts = Vec::new(alloc);
    for variable in 0..count {
        starts.push(start_of(pairs, variable))?;
    }
    Ok(starts)
}

// How many pairs are of lesser variables.
fn start_of(pairs: &[(VarId, AssignId)], variable: usize) -> usize
    requires { IsNonDecreasingBy (λ r. r.0.n) pairs.now }
    ensures { IsStart pairs.now variable result }
{
    pairs.partition_point(|r| (r.0.n as usize) < variable)
}
