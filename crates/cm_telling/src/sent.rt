ghost use Rattle.std.specs.Prelude.{◌≡◌, ◌<◌, ◌==◌, ℕ, if◌then◌else◌};
ghost use Rattle.cm_telling.specs.Echoes.{behind_heard, behind_sent, count_at, is_ours, place_of};

use cm_nmt::{Command, Frame, Target};

/// Of each NMT message how often we sent it and it hasn't come back: on a bus that echoes, each that is sent comes back at most once.
#[derive(Clone, Copy)]
pub struct Sent {
    /// Of each message, at its place.
    counts: [u32; 640],
}

/// The place of a message: its command and its node-ID tell it.
fn place_of(message: Frame) -> usize
    ensures place { result ≡ place_of message }
    ensures inside { result < 640 }
{
    let command = match message.command {
        Command::Start => 0,
        Command::Stop => 1,
        Command::EnterPre => 2,
        Command::ResetNode => 3,
        Command::ResetComm => 4,
    };
    let node = match &message.target {
        Target::Node(id) => usize::from(id.get()),
        Target::All => 0,
    };
    command * 128 + node
}

impl Sent {
    /// None was sent.
    pub(crate) fn new() -> Sent
        ensures { (k : ℕ) → k < 640 → count_at result k ≡ 0 }
    {
        Sent { counts: [0; 640] }
    }

    /// We send this message.
    pub(crate) fn send(&mut self, message: Frame)
        ensures { (k : ℕ) → k < 640 → count_at self.new k ≡ behind_sent message k (count_at self.old k) }
    {
        let place = place_of(message);
        self.counts[place] = self.counts[place].saturating_add(1);
    }

    /// This message was heard. Whether it is one of ours that comes back.
    pub(crate) fn hear(&mut self, message: Frame) -> bool
        ensures ours { result ≡ is_ours self.old message }
        ensures behind { (k : ℕ) → k < 640 → count_at self.new k ≡ behind_heard message k (count_at self.old k) }
    {
        let place = place_of(message);
        let count = self.counts[place];
        self.counts[place] = count.saturating_sub(1);
        count != 0
    }
}
