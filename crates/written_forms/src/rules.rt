//! The rules of names, kinds and targets, as an instruction breaks them by itself.

ghost use Rattle.std.specs.Prelude.{◌≡◌, Bool, true, false, Option};
ghost use Rattle.ar_syntax.specs.declared.instructions.Instr.{out-Instr};
ghost use Rattle.ar_syntax.specs.declared.paths.Path.{Path};
ghost use Rattle.class_table.specs.Earliest.{IsEarliest};
ghost use Rattle.written_forms.specs.WrongInside.{IsNamedPath, NamesKind};
ghost use Rattle.written_forms.specs.Breaches.{MisnamesItself, MistypesItself, MisplacedInAction, MisplacedInAssertion};
ghost use Rattle.written_forms.specs.BreachesInside.{IsSort, IsTarget, IsNoTargetAt, IsSortAt};

use crate::{Naming, differ, first_misnamed, first_mistyped};
use ar_base::Place;
use ar_syntax::{Instr, Path};
use class_table::earliest::earliest;
use typed_expr::ValueKind;

/// What paths name where an instruction stands.
pub trait Targets: Naming {
    /// Whether the variable that the path names is a state variable, or none where it names no
    /// variable.
    ghost target_at: { Self → Path → Option Bool };

    /// Whether the variable that the path names is a state variable, or None where it names no
    /// variable.
    fn target(&self, path: &Path) -> Option<bool>
        requires { Self.is_sound self.now }
        ensures { result ≡ target_at self.now path.now };
}

/// The earliest place at which the instruction itself names nothing that it may name: a path of its
/// expression, or a path that is assigned or tied and names no variable. Takes no memory.
pub fn misnamed_itself<T: Targets>(instr: &Instr, targets: &T) -> Option<Place>
    requires { T.is_sound targets.now }
    ensures { IsEarliest (MisnamesItself (IsNamedPath (T.kind_at targets.now)) (IsTarget
        (T.target_at targets.now)) (out-Instr instr.now)) result }
{
    match instr {
        Instr::Skip => None,
        Instr::Assign(path, value) => {
            earliest(no_variable(path, targets), first_misnamed(value, targets))
        }
        Instr::Tie(left, right) => earliest(
            no_variable(left, targets),
            no_variable(right, targets),
        ),
        Instr::If(test, _, _) => first_misnamed(test, targets),
        Instr::All(_) => None,
    }
}

// The place of the path, where it names no variable.
fn no_variable<T: Targets>(path: &Path, targets: &T) -> Option<Place>
    requires { T.is_sound targets.now }
    ensures { IsEarliest (IsNoTargetAt (T.target_at targets.now) path.now) result }
{
    match targets.target(path) {
        Some(_) => None,
        None => Some(path.at),
    }
}

/// The earliest place at which the instruction itself has a wrong kind: its test is to be a truth
/// value, its value of its target's kind, and the right path of a `:=:` of the kind of the left
/// one. Takes no memory.
pub fn mistyped_itself<T: Targets>(instr: &Instr, targets: &T) -> Option<Place>
    requires { T.is_sound targets.now }
    ensures { IsEarliest (MistypesItself (NamesKind (T.kind_at targets.now))
        (out-Instr instr.now)) result }
{
    match instr {
        Instr::Skip => None,
        Instr::Assign(path, value) => match targets.kind(path) {
            None => None,
            Some(kind) => first_mistyped(value, Some(kind), targets),
        },
        Instr::Tie(left, right) => {
            if differ(targets.kind(right), targets.kind(left)) {
                Some(right.at)
            } else {
                None
            }
        }
        Instr::If(test, _, _) => first_mistyped(test, Some(ValueKind::Truth), targets),
        Instr::All(_) => None,
    }
}

/// The place at which the instruction itself stands wrongly in an action: at its target, where this
/// is a variable and no state variable, and at the left path of a `:=:`. Takes no memory.
pub fn misplaced_in_action<T: Targets>(instr: &Instr, targets: &T) -> Option<Place>
    requires { T.is_sound targets.now }
    ensures { IsEarliest (MisplacedInAction (IsSort (T.target_at targets.now) false)
        (out-Instr instr.now)) result }
{
    match instr {
        Instr::Skip => None,
        Instr::Assign(path, _) => of_sort(path, false, targets),
        Instr::Tie(left, _) => Some(left.at),
        Instr::If(_, _, _) => None,
        Instr::All(_) => None,
    }
}

/// The place at which the instruction itself stands wrongly in an assertion: at its target, or the
/// first of its paths, that is a variable and no flow. Takes no memory.
pub fn misplaced_in_assertion<T: Targets>(instr: &Instr, targets: &T) -> Option<Place>
    requires { T.is_sound targets.now }
    ensures { IsEarliest (MisplacedInAssertion (IsSort (T.target_at targets.now) true) (IsSort
        (T.target_at targets.now) false) (out-Instr instr.now)) result }
{
    match instr {
        Instr::Skip => None,
        Instr::Assign(path, _) => of_sort(path, true, targets),
        Instr::Tie(left, right) => match targets.target(left) {
            Some(true) => Some(left.at),
            Some(false) => of_sort(right, true, targets),
            None => None,
        },
        Instr::If(_, _, _) => None,
        Instr::All(_) => None,
    }
}

// The place of the path, where it names a state variable, or a flow.
fn of_sort<T: Targets>(path: &Path, is_state: bool, targets: &T) -> Option<Place>
    requires { T.is_sound targets.now }
    ensures { IsEarliest (IsSortAt (T.target_at targets.now) is_state path.now) result }
{
    match targets.target(path) {
        None => None,
        Some(sort) => {
            if sort == is_state {
                Some(path.at)
            } else {
                None
            }
        }
    }
}
