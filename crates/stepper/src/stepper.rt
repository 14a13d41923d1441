//! Steppers.

ghost use Rattle.std.specs.Prelude.{◌≡◌, ◌<◌, ℕ, [], ◌∷◌, length, IfOk, IfErr, OnOk, OnErr};
ghost use Rattle.ar_meaning.specs.Systems.{Way};
ghost use Rattle.ar_meaning.specs.Facts.{HasValue};
ghost use Rattle.ar_meaning.specs.Found.{IsAnswer};
ghost use Rattle.ar_meaning.specs.Runs.{Start};
ghost use Rattle.ar_meaning.specs.Steps.{Step, Next};
ghost use Rattle.ar_meaning.specs.Ways.{Can};
ghost use Rattle.gts_core.specs.View.{net_of, IsWayAt};
ghost use Rattle.gts_core.specs.Sound.{IsSound};
ghost use Rattle.gts_core.specs.Readings.{IsTotal};
ghost use Rattle.ar_meaning.specs.Flows.{Flows, Total};
ghost use Rattle.flow_propagate.specs.NewValues.{AreNewValues, written};
ghost use Rattle.flow_changes.specs.Present.{IsFaultOf};
ghost use Rattle.flow_changes.specs.Changes.{AreChanges};
ghost use Rattle.stepper.specs.Steps.{IsStartFault, IsStepFault};

use crate::changes::StepChanges;
use crate::faults::{NoStep, StepFault};
use crate::keeping::{keep, make_room};
use crate::moves::{declared, go_on, next_values};
use ar_base::{VarId, WayId};
use domains::Value;
use flow_changes::{Present, make_present, restore};
use flow_propagate::{Plan, PropagateFault, make_plan};
use gts_core::{Gts, Valuation};
use std::alloc::Global;
use std::marker::Model;
use way_flags::{WayIndex, is_set, turn, way_flags, way_index};

/// A run of a flat system, step by step: seen as the system's parts, the present total valuation, the standing valuations
/// below it, the nearest first, and the variables that the last step or way back changed.
///
/// The present valuation has a value of its domain for each variable. What each standing step changed is kept, and not the
/// valuation before it; so is what the last step back undid. A step takes as long as what it changes reaches: the ways that
/// take part, the flows that follow from what they give, and the ways whose guards name what changed or that are above
/// one whose flag was turned. Only a step that the flows refuse works out all flows anew.
#[derive(Drop)]
pub struct Stepper<'a> {
    alloc: Global,
    gts: &'a Gts,
    plan: Plan,
    index: WayIndex,
    present: Present,
    can: Vec<bool>,
    steps: Vec<StepChanges>,
    undone: Option<StepChanges>,
}

impl<'a> Model for Stepper<'a> {
    ghost use Rattle.std.specs.Coded.{codes};
    ghost use Rattle.gts_core.specs.contracts.system.GtsParts.{the_row as parts_row};
    ghost use Rattle.stepper.specs.Steps.{Standing};

    ghost Value = { Standing };

    ghost coded = { Prim.hlevel (codes, parts_row.coded) };

    ghost use Rattle.stepper.specs.Keeping.{standing_of, IsSoundStepper};

    ghost view = { standing_of };

    ghost invariant = { IsSoundStepper };
}

impl<'a> Stepper<'a> {
    /// A run's start: the flows of the declared values of the state variables, or their first fault.
    pub fn start(alloc: Global, gts: &'a Gts) -> Result<Stepper<'a>, PropagateFault>
        ensures system { IfOk result (λ stepper. stepper.system ≡ gts.now) }
        ensures starts { IfOk result (λ stepper. Start (net_of gts.now) stepper.values) }
        ensures no_step { IfOk result (λ stepper. stepper.below ≡ []) }
        ensures none_changed { IfOk result (λ stepper. stepper.changed ≡ []) }
        ensures fault { IfErr result (IsStartFault (net_of gts.now)) }
    {
        let plan = make_plan(alloc, gts)?;
        let parts = gts.parts();
        let state = declared(alloc, parts)?;
        let present = make_present(alloc, gts, &plan, &state)?;
        let index = way_index(alloc, parts)?;
        let can = way_flags(alloc, parts, &index, &present.determined.values.values)?;
        Ok(Stepper {
            alloc,
            gts,
            plan,
            index,
            present,
            can,
            steps: Vec::new(alloc),
            undone: None,
        })
    }

    /// Whether a way can fire. Takes no memory.
    pub fn enabled(&self, way: WayId) -> bool
        requires { way.n < length self.now.system.ways.items }
        ensures { (w : Way ℕ) → IsWayAt self.now.system way.n w
            → IsAnswer result (Can (HasValue (net_of self.now.system) self.now.values) w) }
    {
        is_set(&self.can, way)
    }

    /// Fires a way, or says why not. Ways of hidden events can be fired too. After a refusal the stepper is as it was.
    pub fn fire(&mut self, way: WayId) -> Result<(), StepFault>
        requires { way.n < length self.old.system.ways.items }
        ensures step { OnOk result ((w : Way ℕ) → IsWayAt self.old.system way.n w
            → Step (net_of self.old.system) self.old.values w (Next self.new.values)) }
        ensures below { OnOk result (self.new.below ≡ self.old.values ∷ self.old.below) }
        ensures changed { OnOk result (AreChanges self.old.values self.new.values
            self.new.changed) }
        ensures fault { IfErr result (λ f. (w : Way ℕ) → IsWayAt self.old.system way.n w
            → IsStepFault (net_of self.old.system) self.old.values w f) }
        ensures err { OnErr result (self.new ≡ self.old) }
        ensures system { self.new.system ≡ self.old.system }
    {
        let new = next_values(
            self.alloc,
            self.gts,
            &self.can,
            &self.present.determined.values.values,
            way,
        )?;
        match self.go(&new) {
            Ok(()) => Ok(()),
            Err(PropagateFault::Flow(fault)) => Err(StepFault::Flow(fault)),
            Err(PropagateFault::Memory) => Err(StepFault::Memory),
        }
    }

    // Goes to what the state with these new values determines, and keeps what changed. After a refusal the stepper is as it
    // was.
    fn go(&mut self, new: &[(VarId, Value)]) -> Result<(), PropagateFault>
        requires { AreNewValues self.old.system new.now }
        ensures flows { OnOk result (Flows (net_of self.old.system)
            (written self.old.values new.now) (Total self.new.values)) }
        ensures below { OnOk result (self.new.below ≡ self.old.values ∷ self.old.below) }
        ensures changed { OnOk result (AreChanges self.old.values self.new.values
            self.new.changed) }
        ensures fault { IfErr result (IsFaultOf self.old.system (written self.old.values new.now)) }
        ensures err { OnErr result (self.new ≡ self.old) }
        ensures system { self.new.system ≡ self.old.system }
    {
        make_room(&mut self.steps)?;
        let step = go_on(
            self.alloc,
            self.gts,
            &self.plan,
            &self.index,
            new,
            &mut self.present,
            &mut self.can,
        )?;
        keep(&mut self.steps, step)?;
        self.undone = None;
        Ok(())
    }

    /// Takes the last standing step back, or says that there is none. Takes no memory.
    pub fn back(&mut self) -> Result<(), NoStep>
        ensures back { OnOk result (self.old.below ≡ self.new.values ∷ self.new.below) }
        ensures changed { OnOk result (AreChanges self.old.values self.new.values
            self.new.changed) }
        ensures none { OnErr result (self.old.below ≡ []) }
        ensures err { OnErr result (self.new ≡ self.old) }
        ensures system { self.new.system ≡ self.old.system }
    {
        let Some(changed) = self.steps.pop() else {
            return Err(NoStep {});
        };
        restore(self.gts.parts(), &mut self.present, &changed.flows);
        turn(&mut self.can, &changed.ways);
        self.undone = Some(changed);
        Ok(())
    }

    /// The present valuation, which has a value of its domain for each variable. Takes no memory.
    pub fn values(&self) -> &Valuation
        ensures values { result.now.values.items ≡ self.now.values }
        ensures total { IsTotal self.now.system self.now.values }
    {
        &self.present.determined.values
    }

    /// The variables that the last step or `back` changed, ascending; none at the start. Takes no memory.
    pub fn changed(&self) -> &[VarId]
        ensures { result.now ≡ self.now.changed }
    {
        if let Some(step) = &self.undone {
            return &step.flows.variables;
        }
        match self.steps.last() {
            Some(step) => &step.flows.variables,
            None => &[],
        }
    }

    /// How many steps stand. Takes no memory.
    pub fn steps(&self) -> usize
        ensures { result ≡ length self.now.below }
    {
        self.steps.len()
    }
}
