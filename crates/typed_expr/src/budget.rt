//! How much the evaluation of sets may take.

ghost use Rattle.std.specs.Prelude.{◌≡◌, ◌<◌, OnOk, IfErr, false};
ghost use Rattle.typed_expr.specs.Budgets.{Spends, taken_by};

use ar_base::{Cap, Memory};

// The most values of the sets of one search for facts.
const MOST_OF_FACTS: u64 = 67_108_864;

// The most values of the sets of one test of all expressions of a system.
const MOST_OF_TEST: u64 = 134_217_728;

/// What evaluations that belong together may still take: each value of a set, and each result of a step of a fold, counts as
/// one, and so does a variable without a value.
///
/// It counts from the first set of more than one value on, so evaluations that meet no such set spend nothing.
#[derive(Drop)]
pub struct Budget {
    counts: bool,
    left: u64,
}

impl Budget {
    /// The budget of one search for the facts of a state, or of one evaluation by itself: 67,108,864 values.
    pub fn for_facts() -> Budget
        ensures counts { result.counts ≡ false }
        ensures left { result.left ≡ 67108864 }
    {
        Budget {
            counts: false,
            left: MOST_OF_FACTS,
        }
    }

    /// The budget of one test of what all expressions of a system may yield: 134,217,728 values.
    pub fn for_test() -> Budget
        ensures counts { result.counts ≡ false }
        ensures left { result.left ≡ 134217728 }
    {
        Budget {
            counts: false,
            left: MOST_OF_TEST,
        }
    }

    // Spends so many values, before they are made. The error comes where fewer are left.
    pub(crate) fn spend(&mut self, values: usize) -> Result<(), Memory>
        ensures ok { OnOk result (Spends self.old values self.new) }
        ensures err { IfErr result (λ _. self.old.left < taken_by values) }
    {
        if values > 1 {
            self.counts = true;
        }
        if !self.counts {
            return Ok(());
        }
        let taken = if values > 1 { values as u64 } else { 1 };
        if taken > self.left {
            return Err(Memory::from(Cap::Values));
        }
        self.left -= taken;
        Ok(())
    }
}
