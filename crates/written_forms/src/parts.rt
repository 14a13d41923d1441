//! The instructions that stand in an instruction.

ghost use Rattle.ar_base.specs.declared.places.Place.{Place};
ghost use Rattle.ar_syntax.specs.declared.instructions.Instr.{out-Instr};
ghost use Rattle.class_table.specs.Earliest.{IsEarliest};
ghost use Rattle.written_forms.specs.Parts.{InstrForm};
ghost use Rattle.written_forms.specs.PartsInside.{BreaksInside, BreaksInOne};

use ar_base::Place;
use ar_syntax::Instr;
use class_table::earliest::earliest;

/// A rule that an instruction can break by itself, apart from the instructions in it.
pub trait Rule {
    /// What is to hold where the rule is tested.
    ghost is_sound: { Self → Type 0 };

    /// The rule is broken by the instruction itself, at the place.
    ghost breaks: { Self → InstrForm → Place → Type 0 };

    /// The earliest place at which the instruction itself breaks the rule.
    fn broken(&self, instr: &Instr) -> Option<Place>
        requires { is_sound self.now }
        ensures { IsEarliest (breaks self.now (out-Instr instr.now)) result };
}

/// The earliest place at which the instruction, or one that stands in it, breaks the rule. Takes no
/// memory.
#[cycle(parts)]
pub fn first_breach<R: Rule>(instr: &Instr, rule: &R) -> Option<Place>
    requires { R.is_sound rule.now }
    ensures { IsEarliest (BreaksInside (R.breaks rule.now) (out-Instr instr.now)) result }
{
    let itself = rule.broken(instr);
    match instr {
        Instr::Skip => itself,
        Instr::Assign(_, _) => itself,
        Instr::Tie(_, _) => itself,
        Instr::If(_, first, second) => match second {
            None => earliest(itself, first_breach(first, rule)),
            Some(other) => {
                let branches = earliest(first_breach(first, rule), first_breach(other, rule));
                earliest(itself, branches)
            }
        },
        Instr::All(instrs) => earliest(itself, first_in(instrs, rule)),
    }
}

// The same of several instructions.
#[cycle(parts)]
fn first_in<R: Rule>(instrs: &[Instr], rule: &R) -> Option<Place>
    requires { R.is_sound rule.now }
    ensures { IsEarliest (BreaksInOne (R.breaks rule.now) instrs.now) result }
{
    let mut found = None;
    for instr in instrs {
        found = earliest(found, first_breach(instr, rule));
    }
    found
}
