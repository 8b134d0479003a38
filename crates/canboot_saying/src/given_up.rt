//! The slaves that are given up, until that is told.

ghost use Rattle.std.specs.Prelude.{◌≡◌, ◌≤◌, IfSome};

use cm_nmt::{NodeId, Status};

/// That a slave is given up, with what came of its boots.
#[derive(Clone, Copy)]
pub struct Boots {
    /// How many were begun, at most 255.
    pub attempts: u8,
    /// The status of the last, if there was one.
    pub status: Option<Status>,
    /// How many entries of the history came before it was given up: it is told behind them.
    pub place: u64,
}

/// The slaves that are given up, each until that is told: behind the entries that came before it, so that the status of its last boot
/// stands before it.
#[derive(Clone, Copy)]
pub struct GivenUps {
    /// Of each node, that of node i at place i.
    slaves: [Option<Boots>; 128],
    /// The place of the entry that was told last, counted from 1.
    told: u64,
}

impl GivenUps {
    /// None is given up, and no entry was told.
    pub fn new() -> GivenUps
        ensures { result.told ≡ 0 }
    {
        GivenUps {
            slaves: [None; 128],
            told: 0,
        }
    }

    /// The slave is given up.
    pub fn put_off(&mut self, id: NodeId, boots: Boots)
        ensures { self.new.told ≡ self.old.told }
    {
        self.slaves[usize::from(id.get())] = Some(boots);
    }

    /// The entry at this place was told.
    pub fn note_told(&mut self, place: u64)
        ensures { self.new.told ≡ place }
    {
        self.told = place;
    }

    /// That the slave is given up, if it is to be told now. It is told once.
    pub fn take(&mut self, id: NodeId) -> Option<Boots>
        ensures behind { IfSome result (λ boots. boots.place ≤ self.old.told) }
        ensures told { self.new.told ≡ self.old.told }
    {
        let boots = self.slaves[usize::from(id.get())]?;
        if boots.place > self.told {
            return None;
        }
        self.slaves[usize::from(id.get())] = None;
        Some(boots)
    }
}
