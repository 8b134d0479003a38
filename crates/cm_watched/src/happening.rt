use cm_history::Entry;
use cm_nmt::NodeId;

/// What happens in a live run.
#[derive(Clone, Copy)]
pub enum Happening {
    /// An error control message of the node came, with this byte, and counts: see `Watch::hear` of cm_watch (CiA 301, boot-up,
    /// heartbeat and node guarding).
    Heard(NodeId, u8),
    /// A call was made: its entry of the history. Calls are told in the order of the history.
    Called(Entry),
    /// A worker's attempts at the slave have ended.
    Ended(NodeId),
    /// The operator asks for a boot of the slave.
    Asked(NodeId),
    /// The run is to end at this time, in ms since it began: its operator wants it, or types no more. Told again, the last one
    /// told counts.
    Ends(u64),
}

/// What is to be done.
#[derive(Clone, Copy)]
pub enum Step {
    /// The manager is to be told that the slave is lost.
    Lost(NodeId),
    /// The worker of the slave is to boot it.
    Boot(NodeId),
    /// The slave is to be made to answer again before it is booted, since it stands stopped: by enter pre-operational (CiA 301).
    Wake(NodeId),
    /// The manager is to be told what the node sent: a boot-up message (0), or its state.
    Signal(NodeId, u8),
    /// The operator is to be told that so many changes of state of the node were left out.
    LeftOut(NodeId, u32),
    /// The manager is to be told that so many ms went by since the network was started: the time for the boot of its
    /// mandatory slaves is over.
    TimeOver(u32),
    /// The manager is to be told that so many ms went by: the network is ready, or all slaves were tried.
    AllTried(u32),
    /// The manager's own heartbeat is to be sent, with this byte: 0, boot-up, at first, and then its own NMT state (CiA 301).
    Beat(u8),
    /// The slave is to be asked for its state: node guarding (CiA 301).
    Guard(NodeId),
    /// The run ends.
    End,
}

/// What a past is made of: what has happened, and the steps that were given.
#[derive(Clone, Copy)]
pub enum Moment {
    /// This happened.
    Happened(Happening),
    /// This step was given.
    Gave(Step),
}
