//! The commands, and the word of each.

ghost use Rattle.std.specs.Prelude.{◌≡◌, ◌≢◌, MatchOption};
ghost use Rattle.run_words.specs.declared.verbs.Verb.{Verb as Verbs};
ghost use Rattle.run_words.specs.Commands.{word_of};

/// A command of the program.
#[derive(Clone, Copy)]
pub enum Verb {
    /// `check`: says what the model has, or the rule that it breaks.
    Check,
    /// `flat`: writes the flat system.
    Flat,
    /// `replay`: runs a script.
    Replay,
    /// `fragment`: writes the trees of modes.
    Fragment,
    /// `equations`: writes the gates of an observer's value.
    Equations,
    /// `cuts`: lists the cuts of an observer's value.
    Cuts,
    /// `make`: lists the cuts of a generated model, in brief.
    Make,
    /// `explain`: says where the flows of the last standing step come from.
    Explain,
    /// `checkcuts`: checks a list of cuts.
    CheckCuts,
    /// `modules`: lists the cuts with the units that can be exchanged taken together.
    Modules,
}

// The command that a word names.
pub(crate) fn named(word: &str) -> Option<Verb>
    ensures { MatchOption result ((verb : Verbs) → word.now ≢ word_of verb)
        (λ verb. word.now ≡ word_of verb) }
{
    match word {
        "check" => Some(Verb::Check),
        "flat" => Some(Verb::Flat),
        "replay" => Some(Verb::Replay),
        "fragment" => Some(Verb::Fragment),
        "equations" => Some(Verb::Equations),
        "cuts" => Some(Verb::Cuts),
        "make" => Some(Verb::Make),
        "explain" => Some(Verb::Explain),
        "checkcuts" => Some(Verb::CheckCuts),
        "modules" => Some(Verb::Modules),
        _ => None,
    }
}
