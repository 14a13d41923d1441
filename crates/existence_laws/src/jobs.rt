//! From a source to what stands ready for a command.

ghost use Rattle.ar_firing.specs.RulesInside.{HasTargets};
ghost use Rattle.job_stages.specs.Stages.{Ready, Static};
ghost use Rattle.existence_laws.specs.Answered.{HasAnswer};

/// A source, of which each assignment of an assertion has a variable as its target, keeps the rules of the
/// static fragment, or there is the first that it breaks, with what it is shown with.
pub fn static_is_answered()
    ensures { (w : Ready) → HasTargets w.source.system → HasAnswer (Static w) }
{}
