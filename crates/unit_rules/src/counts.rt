//! Counts of variables, events and nodes.

ghost use Rattle.std.specs.Prelude.{◌≡◌, ◌+◌, ◌++◌, [], List, ℕ};
ghost use Rattle.class_table.specs.Members.{NamedMember};
ghost use Rattle.unit_rules.specs.Counting.{capped, AreMemberCounts};

/// How many variables, events and nodes there are, each no greater than the machine's greatest number.
#[derive(Clone, Copy)]
pub(crate) struct Counts {
    pub variables: u64,
    pub events: u64,
    pub nodes: u64,
}

/// The sum of two counts, or the greatest number where it is greater.
pub(crate) fn both(first: u64, second: u64) -> u64
    ensures { (a b : ℕ) → first ≡ capped a → second ≡ capped b → result ≡ capped (a + b) }
{
    first.saturating_add(second)
}

impl Counts {
    /// Nothing.
    pub(crate) fn none() -> Counts
        ensures { AreMemberCounts [] 0 result }
    {
        Counts {
            variables: 0,
            events: 0,
            nodes: 0,
        }
    }

    /// The counts of both.
    pub(crate) fn with(self, other: Counts) -> Counts
        ensures { (gs hs : List NamedMember) (n k : ℕ) → AreMemberCounts gs n self → AreMemberCounts hs k other
            → AreMemberCounts (gs ++ hs) (n + k) result }
    {
        Counts {
            variables: both(self.variables, other.variables),
            events: both(self.events, other.events),
            nodes: both(self.nodes, other.nodes),
        }
    }
}
