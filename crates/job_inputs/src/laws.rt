//! What follows from the definition of lists of cuts.

ghost use Rattle.std.specs.Prelude.{◌≡◌, ℕ, List, Result};
ghost use Rattle.gts_flatten.specs.Elaborating.{Elaborated};
ghost use Rattle.job_inputs.specs.CutLists.{CutLine, CutList};
ghost use Rattle.job_inputs.specs.CutListsInside.{HaveOneMeaning};
ghost use Rattle.job_inputs.specs.Scripts.{BadLine};

/// A list has one reading: it gives its cut lines in one way, or one line of it is the first bad one. This rests on labels
/// that name one way each and need no other number.
pub fn one_list()
    ensures { (x : Elaborated) → HaveOneMeaning x → (text : List ℕ)
        (a b : Result (List CutLine) BadLine) → CutList text x a → CutList text x b → a ≡ b }
{}
