ghost use Rattle.std.specs.Prelude.{◌≡◌, ◌==◌, ◌<◌, ℕ, None, Some, if◌then◌else◌};
ghost use Rattle.cm_run.specs.Buses.{put_on, slave_at};

use crate::slave::SimSlave;
use cm_boot::{Answer, Bus, Question};
use cm_nmt::NodeId;

/// A slave on a bus, and how many writes it acknowledges yet.
#[derive(Clone, Copy, Debug, PartialEq, Eq)]
pub struct Attached {
    pub slave: SimSlave,
    pub left: u8,
}

/// A bus of simulated slaves, that of one worker. A node without a slave is silent.
#[derive(Clone, Copy, Debug, PartialEq, Eq)]
pub struct SimBus {
    /// The slave of node i stands at place i.
    slaves: [Option<Attached>; 128],
}

impl SimBus {
    /// A bus without a slave.
    pub fn new() -> SimBus
        ensures { (i : ℕ) → i < 128 → slave_at result i ≡ None }
    {
        SimBus {
            slaves: [None; 128],
        }
    }

    /// Puts a slave on the bus, in the place of the one that the node had.
    pub fn put(&mut self, id: NodeId, slave: SimSlave)
        ensures { (i : ℕ) → i < 128
            → slave_at self.new i ≡ (if id == i then Some (put_on slave) else slave_at self.old i) }
    {
        self.slaves[id.get() as usize] = Some(Attached {
            slave,
            left: slave.write_limit,
        });
    }
}

impl Bus for SimBus {
    ghost use Rattle.cm_run.specs.Buses.{Steps};

    ghost step = { Steps };

    fn ask(&mut self, id: NodeId, question: Question) -> Answer {
        let place = id.get() as usize;
        let Some(attached) = self.slaves[place] else {
            return Answer::Silent;
        };
        let Attached { slave, left } = attached;
        self.slaves[place] = Some(Attached {
            slave,
            left: slave.left_after(left, question),
        });
        slave.answer(left, question)
    }
}
