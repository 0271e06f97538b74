//! Steps of a trace.

ghost use Rattle.std.specs.Prelude.{◌≡◌, ◌+◌, ◌*◌, ◌<◌, ◌≤◌, ◌^◌, ◌↔◌, [], IfOk, IfSome, OnErr, Ok, length, take};
ghost use Rattle.trace_streams.specs.Draws.{draw_at};
ghost use Rattle.chain_model.specs.States.{IsState};
ghost use Rattle.chain_model.specs.Choices.{choices_of};

use crate::choosing::Choices;
use crate::found::Found;
use crate::guards::fill;
use crate::known::{take_known, take_told};
use crate::listing::{Listed, write_choices};
use crate::moving::{Moved, make_move};
use crate::next::Next;
use crate::plain::{PATIENCE, choices_by_tests, patience_after};
use crate::plan::{Plan, Room, plan_of, room_for};
use crate::telling::next_by;
use chain_model::limits::MOST_MODULES;
use chain_model::{Job, TraceFault};
use std::alloc::{AllocError, Global};
use trace_streams::Draws;

/// What steps of a job's traces need: the compiled chain, and all memory of a step.
#[derive(Debug, Drop)]
pub struct Stepper {
    plan: Plan,
    bytes: Vec<u8>,
    room: Room,
    /// How many passes over guards that can't fault may still tell nothing before none is made any more.
    patience: u32,
}

impl Stepper {
    ghost use Rattle.successors.specs.Enabled.{AreGuards};
    ghost use Rattle.successors.specs.Steppers.{IsStepperOf};
    ghost use Rattle.successors.specs.Moves.{next_of, came};
    ghost use Rattle.successors.specs.Choosing.{AreKnownChoices, AreChoices, IsWithin};
    ghost use Rattle.successors.specs.Plain.{HasChoice};
    ghost use Rattle.successors.specs.Nexts.{IsNext};

    /// The stepper of a job.
    pub fn new(alloc: Global, job: &Job) -> Result<Stepper, AllocError>
        ensures { IfOk result (λ stepper. IsStepperOf job.now stepper) }
    {
        let plan = plan_of(alloc, &job.chain)?;
        let bytes = vec![in alloc; 0; job.chain.commands.len()]?;
        let room = room_for(alloc, &job.chain, &plan)?;
        Ok(Stepper {
            plan,
            bytes,
            room,
            patience: PATIENCE,
        })
    }

    /// What a state's next states are, as far as one draw at most tells them apart. They are written into `first` and
    /// `second`.
    pub fn next_states(
        &mut self,
        job: &Job,
        state: &[i64],
        first: &mut [i64],
        second: &mut [i64],
    ) -> Next
        requires stepper { IsStepperOf job.now self.old }
        requires state { IsState job.now.chain state.now }
        requires first { length first.old ≡ length state.now }
        requires second { length second.old ≡ length state.now }
        ensures next { IsNext job.now.chain state.now result first.new second.new }
        ensures stepper { IsStepperOf job.now self.new }
    {
        match fill(
            &job.chain,
            self.plan.guards.as_slice(),
            state,
            &mut self.bytes,
        ) {
            Ok(_) => next_by(
                &self.plan,
                &job.chain,
                &self.bytes,
                &mut self.room,
                state,
                first,
                second,
            ),
            Err(_) => Next::Untold,
        }
    }

    /// How many choices a state has, and how many commands each of them, where all have equally many and room for them is
    /// given. They are written into `chosen`, one after another.
    pub fn known_choices(&mut self, job: &Job, state: &[i64], chosen: &mut [u32]) -> Option<Listed>
        requires stepper { IsStepperOf job.now self.old }
        requires state { IsState job.now.chain state.now }
        ensures known { IfSome result (λ listed. AreKnownChoices job.now.chain state.now listed.count listed.size
            (take (listed.count * listed.size) chosen.new)) }
        ensures within { IfSome result (λ listed. listed.count * listed.size ≤ length chosen.new) }
        ensures stepper { IsStepperOf job.now self.new }
    {
        match fill(
            &job.chain,
            self.plan.guards.as_slice(),
            state,
            &mut self.bytes,
        ) {
            Ok(_) => write_choices(
                &self.plan,
                &job.chain,
                state,
                &self.bytes,
                &mut self.room,
                chosen,
            ),
            Err(_) => None,
        }
    }

    /// A step from a state whose choices these are, one after another: no guard is evaluated. After a fault the state and
    /// the draws are as they were.
    pub fn take_known(
        &mut self,
        job: &Job,
        listed: Listed,
        commands: &[u32],
        state: &mut [i64],
        draws: &mut Draws,
    ) -> Result<(), TraceFault>
        requires stepper { IsStepperOf job.now self.old }
        requires state { IsState job.now.chain state.old }
        requires known { AreKnownChoices job.now.chain state.old listed.count listed.size commands.now }
        requires place { draws.old.place + 65 ≤ 2 ^ 62 }
        ensures step { came result state.new draws.new.place
            ≡ next_of job.now.chain (draw_at draws.old.seed draws.old.trace)
            (record { state = state.old; position = draws.old.place }) }
        ensures keeps { IsState job.now.chain state.new }
        ensures stepper { IsStepperOf job.now self.new }
        ensures stream { draws.new ≡ record draws.old { place = draws.new.place } }
        ensures stays { OnErr result ((state.new ≡ state.old) × (draws.new ≡ draws.old)) }
    {
        if listed.size > self.room.branches.len() || listed.size > MOST_MODULES {
            return self.step(job, state, draws);
        }
        take_known(
            &self.plan,
            &job.chain,
            listed,
            commands,
            &mut self.room,
            state,
            draws,
        )
    }

    /// What is told of the choices of a state by a pass over its guards, where these can't fault and such passes have told
    /// enough. The commands of the one are written into the room.
    #[inline(always)]
    fn told_choices(&mut self, job: &Job, state: &[i64]) -> Choices
        requires stepper { IsStepperOf job.now self.old }
        requires state { IsState job.now.chain state.now }
        ensures choices { AreChoices job.now.chain state.now result self.new.room.chosen.items }
        ensures some { HasChoice job.now.chain state.now result }
        ensures within { IsWithin result (length self.new.room.chosen.items) }
        ensures few { IsWithin result 64 }
        ensures stepper { IsStepperOf job.now self.new }
    {
        if !self.plan.plain || self.patience == 0 {
            return Choices::Several;
        }
        let told = choices_by_tests(&self.plan, &job.chain, state, &mut self.room.chosen);
        self.patience = patience_after(self.patience, told);
        told
    }

    /// A step from a state by a byte for each guard, and whether a choice was taken. After a fault the state and the draws
    /// are as they were.
    fn advance_by_bytes(
        &mut self,
        job: &Job,
        state: &mut [i64],
        draws: &mut Draws,
    ) -> Result<Moved, TraceFault>
        requires stepper { IsStepperOf job.now self.old }
        requires state { IsState job.now.chain state.old }
        requires place { draws.old.place + 65 ≤ 2 ^ 62 }
        ensures step { came result state.new draws.new.place
            ≡ next_of job.now.chain (draw_at draws.old.seed draws.old.trace)
            (record { state = state.old; position = draws.old.place }) }
        ensures stayed { (result ≡ Ok Moved.Stayed) ↔ (choices_of job.now.chain state.old ≡ Ok []) }
        ensures keeps { IsState job.now.chain state.new }
        ensures stepper { IsStepperOf job.now self.new }
        ensures stream { draws.new ≡ record draws.old { place = draws.new.place } }
        ensures stays { OnErr result ((state.new ≡ state.old) × (draws.new ≡ draws.old)) }
    {
        let found = match fill(
            &job.chain,
            self.plan.guards.as_slice(),
            state,
            &mut self.bytes,
        ) {
            Ok(found) => found,
            Err(fault) => return Err(fault),
        };
        make_move(
            &self.plan,
            &job.chain,
            found,
            &self.bytes,
            0,
            &mut self.room,
            state,
            draws,
        )
    }

    /// A step from a state, and whether a choice was taken. After a fault the state and the draws are as they were.
    pub fn advance(
        &mut self,
        job: &Job,
        state: &mut [i64],
        draws: &mut Draws,
    ) -> Result<Moved, TraceFault>
        requires stepper { IsStepperOf job.now self.old }
        requires state { IsState job.now.chain state.old }
        requires place { draws.old.place + 65 ≤ 2 ^ 62 }
        ensures step { came result state.new draws.new.place
            ≡ next_of job.now.chain (draw_at draws.old.seed draws.old.trace)
            (record { state = state.old; position = draws.old.place }) }
        ensures stayed { (result ≡ Ok Moved.Stayed) ↔ (choices_of job.now.chain state.old ≡ Ok []) }
        ensures keeps { IsState job.now.chain state.new }
        ensures stepper { IsStepperOf job.now self.new }
        ensures stream { draws.new ≡ record draws.old { place = draws.new.place } }
        ensures stays { OnErr result ((state.new ≡ state.old) × (draws.new ≡ draws.old)) }
    {
        match self.told_choices(job, state) {
            Choices::Nothing => Ok(Moved::Stayed),
            Choices::One(size) => match take_told(
                &self.plan,
                &job.chain,
                size,
                &mut self.room,
                state,
                draws,
            ) {
                Ok(()) => Ok(Moved::Taken),
                Err(fault) => Err(fault),
            },
            Choices::Several => self.advance_by_bytes(job, state, draws),
        }
    }

    /// A step from a state. After a fault the state and the draws are as they were.
    pub fn step(
        &mut self,
        job: &Job,
        state: &mut [i64],
        draws: &mut Draws,
    ) -> Result<(), TraceFault>
        requires stepper { IsStepperOf job.now self.old }
        requires state { IsState job.now.chain state.old }
        requires place { draws.old.place + 65 ≤ 2 ^ 62 }
        ensures step { came result state.new draws.new.place
            ≡ next_of job.now.chain (draw_at draws.old.seed draws.old.trace)
            (record { state = state.old; position = draws.old.place }) }
        ensures keeps { IsState job.now.chain state.new }
        ensures stepper { IsStepperOf job.now self.new }
        ensures stream { draws.new ≡ record draws.old { place = draws.new.place } }
        ensures stays { OnErr result ((state.new ≡ state.old) × (draws.new ≡ draws.old)) }
    {
        match self.advance(job, state, draws) {
            Ok(_) => Ok(()),
            Err(fault) => Err(fault),
        }
    }

    /// A step from a state in which bit `lane` of byte n of `enabled` says whether command n is enabled. After a fault
    /// the state and the draws are as they were.
    pub fn step_enabled(
        &mut self,
        job: &Job,
        enabled: &[u8],
        lane: u32,
        state: &mut [i64],
        draws: &mut Draws,
    ) -> Result<(), TraceFault>
        requires stepper { IsStepperOf job.now self.old }
        requires guards { AreGuards job.now.chain state.old lane enabled.now }
        requires lane { lane < 8 }
        requires state { IsState job.now.chain state.old }
        requires place { draws.old.place + 65 ≤ 2 ^ 62 }
        ensures step { came result state.new draws.new.place
            ≡ next_of job.now.chain (draw_at draws.old.seed draws.old.trace)
            (record { state = state.old; position = draws.old.place }) }
        ensures keeps { IsState job.now.chain state.new }
        ensures stepper { IsStepperOf job.now self.new }
        ensures stream { draws.new ≡ record draws.old { place = draws.new.place } }
        ensures stays { OnErr result ((state.new ≡ state.old) × (draws.new ≡ draws.old)) }
    {
        match make_move(
            &self.plan,
            &job.chain,
            Found::Several,
            enabled,
            lane,
            &mut self.room,
            state,
            draws,
        ) {
            Ok(_) => Ok(()),
            Err(fault) => Err(fault),
        }
    }
}
