ghost use Rattle.std.specs.Prelude.{◌≡◌, IfNone, IfSome};
ghost use Rattle.canboot_turns.specs.Ending.{going_on, is_end_step, is_ended_by};

use cm_history::CallFault;
use cm_watched::Step;
use std::alloc::AllocError;

/// How a live run ends.
#[derive(Clone, Copy)]
pub enum Ending {
    /// As its operator asked.
    Asked,
    /// No frames come any more.
    NotHeard,
    /// A frame couldn't be written.
    NotWritten,
    /// Memory was refused.
    OutOfMemory,
    /// A line that was typed, or an error control message, came behind a later one, or not where it was told; this never comes.
    OutOfOrder,
    /// A call couldn't be made.
    NotCalled(CallFault),
}

impl Ending {
    /// What is told of a run that ended so; nothing of one that ended as its operator asked.
    pub fn fault(self) -> Option<&'static str>
        ensures asked { IfNone result (self ≡ Ending.Asked) }
        ensures otherwise { IfSome result (λ _. self ≡ Ending.Asked → ⊥) }
    {
        match self {
            Ending::Asked => None,
            Ending::NotHeard => Some("read failed"),
            Ending::NotWritten => Some("write failed"),
            Ending::OutOfOrder => Some("input out of order"),
            Ending::OutOfMemory | Ending::NotCalled(CallFault::OutOfMemory) => Some(
                "out of memory",
            ),
            Ending::NotCalled(CallFault::JournalFull) => Some("the journal is full"),
            Ending::NotCalled(_) => Some("no worker"),
        }
    }
}

impl From<AllocError> for Ending {
    ghost use Rattle.canboot_turns.specs.declared.ending.Ending.TheVariants.{OutOfMemory};

    ghost from_gives = { λ _ e. e ≡ OutOfMemory };

    fn from(_refused: AllocError) -> Ending
        ensures { result ≡ Ending.OutOfMemory }
    {
        Ending::OutOfMemory
    }
}

impl From<CallFault> for Ending {
    ghost use Rattle.canboot_turns.specs.declared.ending.Ending.TheVariants.{NotCalled};

    ghost from_gives = { λ fault e. e ≡ NotCalled fault };

    fn from(fault: CallFault) -> Ending
        ensures { result ≡ Ending.NotCalled fault }
    {
        Ending::NotCalled(fault)
    }
}

/// Why the run can't go on, if it can't: a frame or an entry was lost.
pub(crate) fn can_go_on(is_broken: bool, is_untold: bool) -> Result<(), Ending>
    ensures { result ≡ going_on is_broken is_untold }
{
    if is_broken {
        Err(Ending::NotWritten)
    } else if is_untold {
        Err(Ending::OutOfMemory)
    } else {
        Ok(())
    }
}

/// Whether the step is the end of the run.
fn is_end(step: &Step) -> bool
    ensures { result ≡ is_end_step step.now }
{
    matches!(step, Step::End)
}

/// Whether the run ends with these steps.
pub(crate) fn is_ended_by(steps: &[Step]) -> bool
    ensures { result ≡ is_ended_by steps.now }
{
    steps.iter().any(|step| is_end(step))
}
