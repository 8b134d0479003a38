//! What a live run does with what the bus says beside answers and states: it tells it, and makes no call.

ghost use Rattle.std.specs.Prelude.{◌≡◌, ◌<◌, ℕ, OnOk};
ghost use Rattle.std.specs.Io.KnownBytes.{Appends};
ghost use Rattle.cm_history.specs.OrderFrames.{frames_of};
ghost use Rattle.cm_netlist.specs.Network.{listing};
ghost use Rattle.cm_telling.specs.Echoes.{behind_sent_all, count_at};
ghost use Rattle.cm_telling.specs.Notices.{left_out_by, notice_by};
ghost use Rattle.cm_words.specs.NoticeWords.{notice_line};

use crate::events::Events;
use crate::teller::Teller;
use cm_can::Remark;
use cm_events::Event;
use cm_history::Entry;
use cm_netlist::Network;
use cm_sequential::frames;
use cm_telling::{Notice, Notices};
use cm_watched::Step;
use cm_words::say_notice;
use std::io::{self, Write};
use std::sync::Wait;
use std::time::Clock;

/// The frames of an entry are ours: each comes back at most once. It is recorded before they are sent, so that none has come back yet.
pub fn count_sent(notices: &mut Notices, network: &Network, entry: &Entry)
    ensures sent { (k : ℕ) → k < 640 → count_at notices.new.sent k
        ≡ behind_sent_all (frames_of (listing network.now) entry.now.orders) k (count_at notices.old.sent k) }
{
    let sent = frames(network, entry.orders);
    notices.send(sent.as_slice());
}

/// Our own boot-up message, if these steps have it, is ours: it comes back at most once. It is counted before what comes back is taken.
pub fn count_beats(notices: &mut Notices, steps: &[Step])
    ensures { notices.new.sent ≡ notices.old.sent }
{
    for step in steps {
        if let Step::Beat(0) = step {
            notices.boot_up();
        }
    }
}

impl Events {
    /// Tells what is told of what the bus says, if something is.
    fn tell_notice<R: Wait + Clock>(&mut self, rt: &R, network: &Network, notice: &Option<Notice>) {
        if let Some(notice) = notice {
            self.tell(rt, &Event::Notice { network, notice });
        }
    }
}

impl Teller {
    /// The bus says this, which is told where it is to be.
    pub fn tell_remark<R: Wait + Clock, E: Write>(
        &mut self,
        err: &mut E,
        rt: &R,
        network: &Network,
        remark: &Remark,
        now: u64,
    ) -> io::Result<()>
        ensures told { OnOk result (Appends (E.contents err.old) (E.contents err.new)
            (notice_line network.now (notice_by self.old.notices network.now now remark.now))) }
    {
        let notice = self.notices.hear(network, now, remark);
        self.events.tell_notice(rt, network, &notice);
        say_notice(err, network, notice)
    }

    /// How many messages were left out is told, where it is to be.
    pub fn tell_left_out<R: Wait + Clock, E: Write>(
        &mut self,
        err: &mut E,
        rt: &R,
        network: &Network,
        now: u64,
    ) -> io::Result<()>
        ensures told { OnOk result (Appends (E.contents err.old) (E.contents err.new)
            (notice_line network.now (left_out_by self.old.notices now))) }
    {
        let notice = self.notices.turn(now);
        self.events.tell_notice(rt, network, &notice);
        say_notice(err, network, notice)
    }
}
