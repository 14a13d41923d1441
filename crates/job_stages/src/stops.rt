//! Why a job stops before its text: a refusal, or want of memory.

use crate::refusals::Refusal;
use ar_base::{Count, Memory, RuleFault};
use ar_parser::ParseFault;
use job_inputs::{ListFault, ScriptFault, WantedFault};
use run_words::JobFault;
use tree_equations::EqFault;

/// A refusal, or want of memory.
#[derive(Drop)]
pub enum Stop {
    /// The job is refused.
    Refused(Refusal),
    /// Memory was refused.
    Memory,
}

impl From<JobFault> for Stop {
    ghost use Rattle.std.specs.Prelude.{◌≡◌};
    ghost use Rattle.job_stages.specs.Passing.{stop_of_words};

    ghost from_gives = { λ fault stop. stop ≡ stop_of_words fault };

    fn from(fault: JobFault) -> Self {
        match fault {
            JobFault::Usage => Stop::Refused(Refusal::Usage),
            JobFault::Memory => Stop::Memory,
        }
    }
}

impl From<ParseFault> for Stop {
    ghost use Rattle.std.specs.Prelude.{◌≡◌};
    ghost use Rattle.job_stages.specs.Passing.{stop_of_parse};

    ghost from_gives = { λ fault stop. stop ≡ stop_of_parse fault };

    fn from(fault: ParseFault) -> Self {
        match fault {
            ParseFault::Lex(at) | ParseFault::Syntax(at) => Stop::Refused(Refusal::Syntax(at)),
            ParseFault::Depth(_) => Stop::Refused(Refusal::Size(Count::Nesting)),
            ParseFault::Memory => Stop::Memory,
        }
    }
}

impl From<RuleFault> for Stop {
    ghost use Rattle.std.specs.Prelude.{◌≡◌};
    ghost use Rattle.job_stages.specs.Passing.{stop_of_rules};

    ghost from_gives = { λ fault stop. stop ≡ stop_of_rules fault };

    fn from(fault: RuleFault) -> Self {
        match fault {
            RuleFault::Rule(rule, at) => Stop::Refused(Refusal::Rule(rule, at)),
            RuleFault::Limit(count) => Stop::Refused(Refusal::Size(count)),
            RuleFault::Memory => Stop::Memory,
        }
    }
}

impl From<ScriptFault> for Stop {
    ghost use Rattle.std.specs.Prelude.{◌≡◌};
    ghost use Rattle.job_stages.specs.Passing.{stop_of_script};

    ghost from_gives = { λ fault stop. stop ≡ stop_of_script fault };

    fn from(fault: ScriptFault) -> Self {
        match fault {
            ScriptFault::Line(line) => Stop::Refused(Refusal::NoCommand(line)),
            ScriptFault::Which(line) => Stop::Refused(Refusal::NeedsWay(line)),
            ScriptFault::Unknown(line) => Stop::Refused(Refusal::NoEvent(line)),
            ScriptFault::Memory => Stop::Memory,
        }
    }
}

impl From<ListFault> for Stop {
    ghost use Rattle.std.specs.Prelude.{◌≡◌};
    ghost use Rattle.job_stages.specs.Passing.{stop_of_list};

    ghost from_gives = { λ fault stop. stop ≡ stop_of_list fault };

    fn from(fault: ListFault) -> Self {
        match fault {
            ListFault::NoEvent => Stop::Refused(Refusal::NoDropped),
            ListFault::Memory => Stop::Memory,
        }
    }
}

impl From<WantedFault> for Stop {
    ghost use Rattle.std.specs.Prelude.{◌≡◌};
    ghost use Rattle.job_stages.specs.Passing.{stop_of_wanted};

    ghost from_gives = { λ fault stop. stop ≡ stop_of_wanted fault };

    fn from(fault: WantedFault) -> Self {
        match fault {
            WantedFault::NoObserver => Stop::Refused(Refusal::NoObserver),
            WantedFault::NoValue => Stop::Refused(Refusal::NoValue),
            WantedFault::Memory => Stop::Memory,
        }
    }
}

impl From<EqFault> for Stop {
    ghost use Rattle.std.specs.Prelude.{◌≡◌};
    ghost use Rattle.job_stages.specs.Passing.{stop_of_table};

    ghost from_gives = { λ fault stop. stop ≡ stop_of_table fault };

    fn from(fault: EqFault) -> Self {
        match fault {
            EqFault::Gates => Stop::Refused(Refusal::Size(Count::Gates)),
            EqFault::Memory => Stop::Memory,
        }
    }
}

impl From<Memory> for Stop {
    ghost use Rattle.std.specs.Prelude.{◌≡◌};
    ghost use Rattle.job_stages.specs.declared.stops.Stop.TheVariants as stop;

    ghost from_gives = { λ _ s. s ≡ stop.Memory };

    fn from(_memory: Memory) -> Self {
        Stop::Memory
    }
}
