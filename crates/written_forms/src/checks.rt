//! The rules as they are tested in an instruction and in those that stand in it.

ghost use Rattle.std.specs.Prelude.{true, false};
ghost use Rattle.written_forms.specs.WrongInside.{IsNamedPath, NamesKind};
ghost use Rattle.written_forms.specs.Breaches.{MisnamesItself, MistypesItself, MisplacedInAction, MisplacedInAssertion};
ghost use Rattle.written_forms.specs.BreachesInside.{IsSort, IsTarget};

use crate::parts::Rule;
use crate::rules::{
    Targets, misnamed_itself, misplaced_in_action, misplaced_in_assertion, mistyped_itself,
};
use ar_base::Place;
use ar_syntax::Instr;

/// The rule of names (L10), by what paths name where the instruction stands.
pub struct NameRule<'a, T> {
    /// What paths name.
    pub targets: &'a T,
}

impl<'a, T: Targets> Rule for NameRule<'a, T> {
    ghost is_sound = { λ s. T.is_sound s.targets.now };

    ghost breaks = { λ s. MisnamesItself (IsNamedPath (T.kind_at s.targets.now)) (IsTarget
        (T.target_at s.targets.now)) };

    fn broken(&self, instr: &Instr) -> Option<Place> {
        misnamed_itself(instr, self.targets)
    }
}

/// The rule of kinds (L11), by what paths name where the instruction stands.
pub struct KindRule<'a, T> {
    /// What paths name.
    pub targets: &'a T,
}

impl<'a, T: Targets> Rule for KindRule<'a, T> {
    ghost is_sound = { λ s. T.is_sound s.targets.now };

    ghost breaks = { λ s. MistypesItself (NamesKind (T.kind_at s.targets.now)) };

    fn broken(&self, instr: &Instr) -> Option<Place> {
        mistyped_itself(instr, self.targets)
    }
}

/// The rule of targets (L13) in the action of a transition, by what paths name there.
pub struct ActionRule<'a, T> {
    /// What paths name.
    pub targets: &'a T,
}

impl<'a, T: Targets> Rule for ActionRule<'a, T> {
    ghost is_sound = { λ s. T.is_sound s.targets.now };

    ghost breaks = { λ s. MisplacedInAction (IsSort (T.target_at s.targets.now) false) };

    fn broken(&self, instr: &Instr) -> Option<Place> {
        misplaced_in_action(instr, self.targets)
    }
}

/// The rule of targets (L13) in an assertion, by what paths name there.
pub struct AssertionRule<'a, T> {
    /// What paths name.
    pub targets: &'a T,
}

impl<'a, T: Targets> Rule for AssertionRule<'a, T> {
    ghost is_sound = { λ s. T.is_sound s.targets.now };

    ghost breaks = { λ s. MisplacedInAssertion (IsSort (T.target_at s.targets.now) true) (IsSort
        (T.target_at s.targets.now) false) };

    fn broken(&self, instr: &Instr) -> Option<Place> {
        misplaced_in_assertion(instr, self.targets)
    }
}
