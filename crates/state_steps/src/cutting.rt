//! The steps in which a replica begins with the audit file that it found, in their order.
ghost use Rattle.std.specs.Prelude.{◌≡◌, ◌≢◌, ◌<◌, ◌-◌, ◌^◌, ◌++◌, ◌∷◌, [], ◌↔◌, Bool, IsTrue};
ghost use Rattle.std.specs.Prelude.{List, false, ℕ};
ghost use Rattle.state_steps.specs.Cuts.{CutKeeps, IsCutBehind, IsWhatIsRead};
ghost use Rattle.state_steps.specs.Cuts.{cut_step, following_cut, with_cut, with_read_line};
ghost use Rattle.state_steps.specs.declared.cutting.CutStage.TheVariants.{Done, Due};
ghost use Rattle.state_steps.specs.declared.cutting.CutStep.TheVariants.{ReadLine};
ghost use Rattle.state_steps.specs.declared.cutting.LastLine.TheVariants.{Unheld};

/// A step in which a replica begins with an audit file.
#[derive(Clone, Copy, Debug, PartialEq, Eq)]
pub enum CutStep {
    /// The last line is read that was not read yet.
    ReadLine,
    /// The lines that were read are cut off, except for the one that is kept.
    CutLines,
    /// The system puts the shorter file on the disk.
    SyncCut,
}

/// What the last line is that was not read yet.
#[derive(Clone, Copy, Debug, PartialEq, Eq)]
pub enum LastLine {
    /// There is no such line.
    Missing,
    /// It is of a change that is held, or it says what is held at a start.
    Held,
    /// It is of a change that is not held, or it is only a part of a line.
    Unheld,
    /// It is not a line of an audit file.
    Foreign,
}

/// How far it has come.
#[derive(Clone, Copy, Debug, PartialEq, Eq)]
enum CutStage {
    /// This step comes next.
    Due(CutStep),
    /// All steps are done.
    Done,
    /// The file is not an audit file, or has more lines than can be counted.
    Refused,
}

/// A replica begins with the audit file that it found. The lines at the file's end whose changes
/// are not held are cut off. It says which step is due. Its caller says what was read, and when the
/// step is done. If a step fails, the file has all that it had, or what is kept of it, and nothing
/// is appended.
///
/// What is held comes first in the file, whatever a stop leaves
/// ([`audits`](crate::laws::audits)). So then the file has the lines of exactly the changes that
/// are held.
#[derive(Clone, Copy, Debug)]
pub struct Cutting {
    stage: CutStage,
    // How many lines are cut off.
    cut: u64,
}

impl Cutting {
    /// The beginning, whatever the file has.
    ///
    /// - `keeps`: no line was read yet.
    pub fn begin() -> Cutting
        ensures keeps { (held : List ℕ → Bool) (lines : List (List ℕ))
            → CutKeeps held lines [] result }
        ensures stage { result.stage ≡ Due ReadLine }
    {
        Cutting {
            stage: CutStage::Due(CutStep::ReadLine),
            cut: 0,
        }
    }

    /// The step that is due; none when all are done, or the file is refused.
    pub fn next(&self) -> Option<CutStep>
        ensures { result ≡ cut_step self.now.stage }
    {
        match self.stage {
            CutStage::Due(step) => Some(step),
            CutStage::Done | CutStage::Refused => None,
        }
    }

    /// Whether all steps are done, so that lines may be appended.
    ///
    /// - `cut`: the last line of what is kept is of a change that is held, or of a start, and no
    ///   line that was cut off is.
    pub fn is_done(&self) -> bool
        ensures stage { IsTrue result ↔ (self.now.stage ≡ Done) }
        ensures cut { IsTrue result → (held : List ℕ → Bool) (stay behind : List (List ℕ))
            → CutKeeps held stay behind self.now → IsCutBehind held stay behind }
    {
        match self.stage {
            CutStage::Done => true,
            _ => false,
        }
    }

    /// How many lines are cut off.
    ///
    /// - `count`: each one.
    pub fn cut(&self) -> u64
        ensures { result ≡ self.now.cut }
    {
        self.cut
    }

    /// Says what was read. A line that is not one of an audit file is refused, and so are more
    /// lines than can be counted.
    ///
    /// - `keeps`: a line whose change is held is kept, and so are those before it.
    /// - `unheld`: one whose change is not held is cut off.
    /// - `next`: after such a line the one before it is read. After one that is kept, what was read
    ///   is cut off, if there is anything.
    pub fn read(&mut self, line: LastLine)
        ensures keeps { (held : List ℕ → Bool) (stay behind : List (List ℕ)) → line ≢ Unheld
            → IsWhatIsRead held line stay → CutKeeps held stay behind self.old
            → CutKeeps held stay behind self.new }
        ensures unheld { (held : List ℕ → Bool) (front behind : List (List ℕ)) (last : List ℕ)
            → line ≡ Unheld → held last ≡ false
            → CutKeeps held (front ++ last ∷ []) behind self.old
            → CutKeeps held front (last ∷ behind) self.new }
        ensures next { self.old.cut < 2 ^ 64 - 1
            → self.new.stage ≡ with_read_line line self.old.cut self.old.stage }
    {
        self.stage = stage_with(line, self.cut, self.stage);
        if line == LastLine::Unheld {
            match self.cut.checked_add(1) {
                Some(cut) => self.cut = cut,
                None => self.stage = CutStage::Refused,
            }
        }
    }

    /// Says that the step that was due is done, if it is not the reading of a line.
    ///
    /// - `keeps`: the same lines are kept.
    /// - `next`: what was cut off is put on the disk next, and only after that all is done.
    pub fn done(&mut self)
        ensures keeps { (held : List ℕ → Bool) (stay behind : List (List ℕ))
            → CutKeeps held stay behind self.old → CutKeeps held stay behind self.new }
        ensures next { self.new.stage ≡ following_cut self.old.stage }
        ensures count { self.new.cut ≡ self.old.cut }
    {
        self.stage = stage_after(self.stage);
    }
}

// The stage after this line, when this many were to be cut off before it.
fn stage_with(line: LastLine, cut: u64, stage: CutStage) -> CutStage
    ensures { result ≡ with_read_line line cut stage }
{
    match (stage, line) {
        (CutStage::Due(CutStep::ReadLine), LastLine::Missing) => stage_of_cut(cut),
        (CutStage::Due(CutStep::ReadLine), LastLine::Held) => stage_of_cut(cut),
        (CutStage::Due(CutStep::ReadLine), LastLine::Unheld) => stage,
        _ => CutStage::Refused,
    }
}

// The stage when this many lines are to be cut off.
fn stage_of_cut(cut: u64) -> CutStage
    ensures { result ≡ with_cut cut }
{
    if cut == 0 {
        CutStage::Done
    } else {
        CutStage::Due(CutStep::CutLines)
    }
}

// The stage after this one, when the step that is due is done.
fn stage_after(stage: CutStage) -> CutStage
    ensures { result ≡ following_cut stage }
{
    match stage {
        CutStage::Due(CutStep::CutLines) => CutStage::Due(CutStep::SyncCut),
        CutStage::Due(CutStep::SyncCut) | CutStage::Done => CutStage::Done,
        CutStage::Due(CutStep::ReadLine) | CutStage::Refused => CutStage::Refused,
    }
}
