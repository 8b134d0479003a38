ghost use Rattle.cm_watched.specs.Beats.{IsAtMultiples};
ghost use Rattle.cm_watch.specs.Causes.{IsNotForgotten};
ghost use Rattle.cm_watch.specs.Limits.{IsEndedOnce, IsOneInTenSeconds, IsToldAtOnce, IsToldInTime};
ghost use Rattle.cm_watch.specs.Losses.{IsLostOnce};

/// Behind a step that gave a slave as lost none does, until a report boots it.
pub fn lost_once()
    ensures { IsLostOnce }
{}

/// Once it has caused 64 steps at once, a node causes at most one in any 10 s by itself, until it was quiet for ten
/// minutes.
pub fn one_in_ten_seconds()
    ensures { IsOneInTenSeconds }
{}

/// What is to be told of a node is given at each time that is 10 s or more behind the last step that it caused by
/// itself, unless it is booted just then.
pub fn told_in_time()
    ensures { IsToldInTime }
{}

/// A boot-up message of a slave whose boot was begun, or that a report booted, is told in the next turn, whatever came before.
pub fn told_at_once()
    ensures { IsToldAtOnce }
{}

/// Each boot-up message that was told so has a boot that was begun, or a report, of its own.
pub fn ended_once()
    ensures { IsEndedOnce }
{}

/// Once the network was started, each slave is booted, or with a worker, or held, or given up, or it is to be booted at
/// some time.
pub fn none_forgotten()
    ensures { IsNotForgotten }
{}

/// Behind a heartbeat of the manager, one is due exactly where a multiple of its time lies between. So none is missed, and
/// where a turn comes late there is one for all that it has passed.
pub fn beats_at_multiples()
    ensures { IsAtMultiples }
{}
