//! What the words of a row say, and the numbers that stand for it.
ghost use Rattle.std.specs.Prelude.{◌≡◌, ◌≤◌, ◌<◌, ℕ, if◌then◌else◌};
ghost use Rattle.cm_history.specs.Legal.{most_entries};
ghost use Rattle.cm_growing.specs.Words.{IsByte, IsWord, node_word, packed_status};
ghost use Rattle.cm_growing.specs.Words.{status_count, status_done, status_node, status_state};
ghost use Rattle.cm_growing.specs.Words.{word_before, word_since, word_state};

use cm_history::UNKNOWN;
use cm_nmt::NmtState;

/// So many numbers fit in a byte.
const BYTE: u64 = 256;

/// So many fit in two.
const BYTES: u64 = 65_536;

/// So many counts of entries fit in the first word, above the lowest two bytes.
const COUNTS: u64 = 2_097_152;

/// The first word where the history is shown no more.
pub(crate) const GONE: u64 = u64::MAX;

/// What the first word says.
#[derive(Clone, Copy)]
pub(crate) struct Status {
    /// How many entries there are.
    pub count: u64,
    /// Up to how many the words of all nodes are right, but for one.
    pub done: u64,
    /// The number of this one, 0 for none.
    pub node: u8,
    /// Its state.
    pub state: u8,
}

impl Status {
    /// The word that says so.
    #[inline(always)]
    pub(crate) fn word(self) -> u64
        requires { (self.count ≤ most_entries) × (self.done ≤ most_entries) }
        ensures value { result ≡ packed_status self.count self.done self.node self.state }
        ensures range { IsByte self.state }
    {
        self.count * (COUNTS * BYTES)
            + self.done * BYTES
            + u64::from(self.node) * BYTE
            + u64::from(self.state)
    }

    /// What a word says.
    #[inline(always)]
    pub(crate) fn of(word: u64) -> Status
        ensures count { result.count ≡ status_count word }
        ensures done { result.done ≡ status_done word }
        ensures node { result.node ≡ status_node word }
        ensures state { result.state ≡ status_state word }
    {
        Status {
            count: word / BYTES / COUNTS,
            done: word / BYTES % COUNTS,
            node: (word / BYTE % BYTE) as u8,
            state: (word % BYTE) as u8,
        }
    }
}

/// What a node's word says.
#[derive(Clone, Copy)]
pub(crate) struct NodeWord {
    /// With how many entries it was stored, 0 where it never was.
    pub since: u64,
    /// The state that is shown with so many.
    pub state: u8,
    /// The state that is shown with one entry less.
    pub before: u8,
}

impl NodeWord {
    /// The word that says so.
    #[inline(always)]
    pub(crate) fn word(self) -> u64
        requires { self.since ≤ most_entries }
        ensures value { result ≡ node_word self.since self.state self.before }
        ensures range { IsByte self.state × IsByte self.before }
    {
        self.since * BYTES + u64::from(self.state) * BYTE + u64::from(self.before)
    }

    /// What a word says.
    #[inline(always)]
    pub(crate) fn of(word: u64) -> NodeWord
        ensures since { result.since ≡ word_since word }
        ensures state { result.state ≡ word_state word }
        ensures before { result.before ≡ word_before word }
    {
        NodeWord {
            since: word / BYTES,
            state: (word / BYTE % BYTE) as u8,
            before: (word % BYTE) as u8,
        }
    }

    /// What a word says of the manager's own node or another. Where it was never stored, both states are the one
    /// that is shown at first.
    #[inline(always)]
    pub(crate) fn found(word: u64, is_own: bool) -> NodeWord
        ensures { (since state before : ℕ) → IsWord word since state before
            → (since ≡ 0 → state ≡ (if is_own then 127 else 0))
            → (result.since ≡ since) × (result.state ≡ state) × (0 < since → result.before ≡ before) }
    {
        if word == 0 {
            let state = if is_own {
                NmtState::PreOperational.code()
            } else {
                UNKNOWN
            };
            return NodeWord {
                since: 0,
                state,
                before: state,
            };
        }
        NodeWord::of(word)
    }
}
