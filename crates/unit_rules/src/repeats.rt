//! Targets that were met before.

ghost use Rattle.std.specs.Prelude.{◌≡◌, ◌+◌, ℕ, List, map, IfOk};
ghost use Rattle.ar_base.specs.Lists.{Stands};
ghost use Rattle.ar_syntax.specs.declared.members.Setting.{Setting as SettingOf};
ghost use Rattle.hierarchy.specs.Settings.{target_word_of, target_of};
ghost use Rattle.unit_rules.specs.Repeats.{code_of, HaveMet, MeetsOne};

use ar_base::Memory;
use ar_syntax::Word;
use std::alloc::Global;
use std::collections::HashSet;

/// The targets so far.
#[derive(Drop)]
pub(crate) struct Targets {
    /// By the numbers of their words.
    pub met: HashSet<Vec<u64>>,
}

/// The number of a word of a target.
pub fn word_code(word: Word) -> u64
    ensures { result ≡ code_of (target_word_of word) }
{
    match word {
        Word::Init => 0,
        Word::Reset => 1,
        Word::Name(name) => u64::from(name.n) + 2,
    }
}

// The numbers of words.
fn codes(alloc: Global, words: &[Word]) -> Result<Vec<u64>, Memory>
    ensures { IfOk result (λ v. v.items ≡ map code_of (map target_word_of words.now)) }
{
    let mut codes = Vec::new(alloc);
    for word in words {
        codes.push(word_code(*word))?;
    }
    Ok(codes)
}

impl Targets {
    /// No targets yet. Takes no memory.
    pub(crate) fn new(alloc: Global) -> Targets
        ensures { (settings : List SettingOf) → HaveMet settings 0 result }
    {
        Targets {
            met: HashSet::new(alloc),
        }
    }

    /// Meets one more target, and tells whether it is new.
    pub(crate) fn meet(&mut self, alloc: Global, words: &[Word]) -> Result<bool, Memory>
        ensures { (settings : List SettingOf) (i : ℕ) (s : SettingOf) → HaveMet settings i self.old
            → Stands settings i s → map target_word_of words.now ≡ target_of s
            → IfOk result (λ is_new. MeetsOne settings i is_new self.new) }
    {
        let codes = codes(alloc, words)?;
        let is_new = self.met.insert(codes)?;
        Ok(is_new)
    }
}
