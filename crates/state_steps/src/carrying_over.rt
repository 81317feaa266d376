//! The steps in which a state is carried over to another configuration, in their order.
ghost use Rattle.std.specs.Prelude.{◌≡◌, ◌-◌, ◌⊎◌, ◌↔◌, IsTrue, List, ℕ};
ghost use Rattle.state_steps.specs.Carries.{AreApart, CarryDisk, CarryKeeps, CarryTexts};
ghost use Rattle.state_steps.specs.Carries.{FailsCarry, IsCarriedOver, IsCarryDueOn};
ghost use Rattle.state_steps.specs.Carries.{IsOldState, IsPreviousLine, after_carry_due};
ghost use Rattle.state_steps.specs.Carries.{carry_side, carry_step, carry_steps_left};
ghost use Rattle.state_steps.specs.Carries.{following_carry};
ghost use Rattle.state_steps.specs.Files.{HasWholeLine, KeepsLine};
ghost use Rattle.state_steps.specs.declared.carrying_over.CarryStage.TheVariants.{Done, Failed};

/// A step in which a state is carried over to another configuration.
#[derive(Clone, Copy, Debug, PartialEq, Eq)]
pub enum CarryStep {
    /// All that the state's files have is saved under the old configuration: it is the snapshot in
    /// the state file, and the journal is removed. These are all steps of a
    /// [`Saving`](crate::Saving).
    FoldState,
    /// The same snapshot is written to a new file, and the system puts it and the folder on the
    /// disk.
    WritePrevious,
    /// What is held under the new configuration is saved. These are all steps of a
    /// [`Saving`](crate::Saving).
    SaveState,
    /// The new file is given the name of the previous state, and the system puts the folder on the
    /// disk.
    ReplacePrevious,
}

/// One of the two configurations of a state that is carried over.
#[derive(Clone, Copy, Debug, PartialEq, Eq)]
pub enum CarrySide {
    /// The one that the state had.
    Old,
    /// The one that it gets.
    New,
}

impl CarryStep {
    /// Under which configuration the snapshot is that the step writes, or gives its name.
    pub fn side(self) -> CarrySide
        ensures { result ≡ carry_side self }
    {
        match self {
            CarryStep::FoldState | CarryStep::WritePrevious => CarrySide::Old,
            CarryStep::SaveState => CarrySide::New,
            CarryStep::ReplacePrevious => CarrySide::Old,
        }
    }
}

/// How far it has come.
#[derive(Clone, Copy, Debug, PartialEq, Eq)]
enum CarryStage {
    /// This step comes next.
    Due(CarryStep),
    /// All steps are done.
    Done,
    /// A step failed.
    Failed,
}

/// A state is carried over to another configuration: it becomes one of the new configuration, and
/// what was held under the old one is kept in the file of the previous state. It says which step is
/// due. Its caller says when the step is done, or that it failed.
///
/// A start after a stop ends what was begun: [`fate_of_new`](crate::fate_of_new) says whether a new
/// file gets the name of the previous state, or is removed. After that each line that was held
/// under the old configuration is in the state's files or in the previous state, at all times and
/// also if a step failed. So is each line that was in the previous state and is held under
/// either configuration.
#[derive(Clone, Copy, Debug)]
pub struct CarryingOver {
    stage: CarryStage,
}

impl CarryingOver {
    /// The beginning, with a state of the old configuration, and without a new file.
    ///
    /// - `old`: each line of the state's files that the old snapshot is to have is kept.
    /// - `back`: so is each line of the previous state that either snapshot is to have.
    /// - `steps`: it has four steps.
    pub fn begin() -> CarryingOver
        ensures old { (texts : CarryTexts) (disk : CarryDisk) (line : List ℕ)
            → IsOldState texts disk → KeepsLine disk.state line
            → HasWholeLine texts.old line → CarryKeeps texts result disk line }
        ensures back { (texts : CarryTexts) (disk : CarryDisk) (line : List ℕ)
            → IsOldState texts disk → IsPreviousLine texts disk line
            → CarryKeeps texts result disk line }
        ensures steps { carry_steps_left result.stage ≡ 4 }
    {
        CarryingOver {
            stage: CarryStage::Due(CarryStep::FoldState),
        }
    }

    /// The step that is due; none if it is over.
    pub fn next(&self) -> Option<CarryStep>
        ensures { result ≡ carry_step self.now.stage }
    {
        match self.stage {
            CarryStage::Due(step) => Some(step),
            CarryStage::Done | CarryStage::Failed => None,
        }
    }

    /// Whether all steps are done.
    pub fn is_done(&self) -> bool
        ensures { IsTrue result ↔ (self.now.stage ≡ Done) }
    {
        match self.stage {
            CarryStage::Done => true,
            _ => false,
        }
    }

    /// Says that the step that was due is done.
    ///
    /// - `due`: the files are as they have to be for the next step.
    /// - `keeps`: no line is lost.
    /// - `carried`: after the last step the state is one of the new configuration, and the previous
    ///   state is the old one.
    /// - `holds`: the new snapshot or the old one has each line that was kept.
    /// - `next`: the old snapshot is on the disk a second time before the state is replaced, and it
    ///   gets its name after that.
    /// - `steps`: each step is one fewer.
    /// - `failed`: if a step failed, it has failed for good.
    pub fn done(&mut self)
        ensures due { (texts : CarryTexts) (disk : CarryDisk)
            → IsCarryDueOn texts self.old.stage disk
            → IsCarryDueOn texts self.new.stage (after_carry_due texts self.old.stage disk) }
        ensures keeps { (texts : CarryTexts) (disk : CarryDisk) (line : List ℕ)
            → CarryKeeps texts self.old disk line
            → CarryKeeps texts self.new (after_carry_due texts self.old.stage disk) line }
        ensures carried { (texts : CarryTexts) (disk : CarryDisk)
            → carry_steps_left self.old.stage ≡ 1 → IsCarryDueOn texts self.old.stage disk
            → IsCarriedOver texts self.new (after_carry_due texts self.old.stage disk) }
        ensures holds { (texts : CarryTexts) (disk : CarryDisk) (line : List ℕ)
            → carry_steps_left self.old.stage ≡ 1 → CarryKeeps texts self.old disk line
            → HasWholeLine texts.old line ⊎ HasWholeLine texts.new line }
        ensures next { self.new.stage ≡ following_carry self.old.stage }
        ensures steps { carry_steps_left self.new.stage ≡ carry_steps_left self.old.stage - 1 }
        ensures failed { self.old.stage ≡ Failed → self.new.stage ≡ Failed }
    {
        self.stage = stage_after(self.stage);
    }

    /// Says that the step that was due failed: what it left is what a stop in its middle may leave.
    ///
    /// - `keeps`: no line is lost.
    /// - `over`: it is over, and not done.
    pub fn failed(&mut self)
        ensures keeps { (texts : CarryTexts) (disk left : CarryDisk) (line : List ℕ)
            → AreApart texts → CarryKeeps texts self.old disk line
            → FailsCarry texts self.old.stage disk left → CarryKeeps texts self.new left line }
        ensures over { self.new.stage ≡ Failed }
    {
        self.stage = CarryStage::Failed;
    }
}

// The stage after this one, when the step that is due is done.
fn stage_after(stage: CarryStage) -> CarryStage
    ensures { result ≡ following_carry stage }
{
    match stage {
        CarryStage::Due(CarryStep::FoldState) => CarryStage::Due(CarryStep::WritePrevious),
        CarryStage::Due(CarryStep::WritePrevious) => CarryStage::Due(CarryStep::SaveState),
        CarryStage::Due(CarryStep::SaveState) => CarryStage::Due(CarryStep::ReplacePrevious),
        CarryStage::Due(CarryStep::ReplacePrevious) => CarryStage::Done,
        over => over,
    }
}
