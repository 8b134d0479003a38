ghost use Rattle.std.specs.Prelude.{◌≡◌, ◌<◌, length};

use crate::{Got, Heard};

/// What a slave answered in a boot, question by question.
#[derive(Clone, Copy, Debug, PartialEq, Eq)]
pub struct Answers {
    /// Object 1000h, the device type.
    pub device: Got,
    /// Object 1018h sub 1 to 4: vendor-ID, product code, revision number, serial number.
    pub ids: [Got; 4],
    /// Object 1020h sub 1, the configuration date.
    pub date: Got,
    /// Object 1020h sub 2, the configuration time.
    pub time: Got,
    /// What the failed write got, if one failed.
    pub refused: Got,
    /// How many writes were acknowledged.
    pub acked: u8,
    /// The state of a slave that is kept alive, by heartbeat or guard request.
    pub heard: Heard,
    /// The beat by which error control starts.
    pub beat: Heard,
}

impl Answers {
    ghost use Rattle.cm_nmt.specs.Answers.{id_of, none};

    /// The answers before any question was asked.
    pub const fn new() -> Answers
        ensures { result ≡ none }
    {
        Answers {
            device: Got::NotAsked,
            ids: [Got::NotAsked, Got::NotAsked, Got::NotAsked, Got::NotAsked],
            date: Got::NotAsked,
            time: Got::NotAsked,
            refused: Got::NotAsked,
            acked: 0,
            heard: Heard::NotAsked,
            beat: Heard::NotAsked,
        }
    }

    /// The answer to 1018h sub `place + 1`.
    #[tactic(auto, unfolding(crate::specs::Answers::id_of))]
    pub fn id(&self, place: usize) -> Got
        requires { place < 4 }
        ensures { result ≡ id_of self.now place }
    {
        self.ids[place]
    }
}

/// The answers before any question was asked.
impl Default for Answers {
    ghost use Rattle.cm_nmt.specs.Answers.{none};

    ghost is_default = { λ a. a ≡ none };

    fn default() -> Answers {
        Answers::new()
    }
}

/// A law, which says in a contract what the type does: there are four identity values (CiA 301,
/// 1018h sub 1 to 4).
pub fn count_ids(answers: &Answers)
    ensures law { length answers.now.ids ≡ 4 }
{}
