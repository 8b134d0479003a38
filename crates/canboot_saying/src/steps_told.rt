//! What a live run tells of the steps that its watch gives, and beside entries.

use crate::teller::Teller;
use cm_can::Format;
use cm_events::Event;
use cm_netlist::Network;
use cm_nmt::NodeId;
use cm_operator::BadLine;
use cm_telling::NoBoot;
use cm_watch::Watch;
use cm_words::{Bad, GivenUp, LeftOut, NoBootOf, NoFrames, TimeOver, open_nodes};
use std::io::Write;
use std::sync::Wait;
use std::time::Clock;

impl Teller {
    /// Tells which slaves are given up, each behind the entries that came before it.
    pub fn tell_given_up<R: Wait + Clock, E: Write>(
        &mut self,
        err: &mut E,
        rt: &R,
        network: &Network,
    ) {
        for id in network.listed_ids().as_slice() {
            let Some(boots) = self.given_up.take(*id) else {
                continue;
            };
            let words = GivenUp {
                network,
                id: *id,
                attempts: boots.attempts,
                status: boots.status,
            };
            let event = Event::GivenUp {
                id: *id,
                is_mandatory: network.mandatory(*id),
                attempts: boots.attempts,
                status: boots.status,
            };
            self.tell(err, rt, &words, &event);
        }
    }

    /// Tells that so many changes of state of a node were left out.
    pub fn tell_states_left_out<R: Wait + Clock, E: Write>(
        &mut self,
        err: &mut E,
        rt: &R,
        id: NodeId,
        count: u32,
    ) {
        let words = LeftOut::new(id, count);
        self.tell(err, rt, &words, &Event::StatesLeftOut(id, count));
    }

    /// Tells that the time for the boot of the mandatory slaves is over.
    pub fn tell_time_over<R: Wait + Clock, E: Write>(
        &mut self,
        err: &mut E,
        rt: &R,
        network: &Network,
        watch: &Watch,
    ) {
        let slaves = TimeOver(open_nodes(network, watch));
        self.tell(err, rt, &slaves, &Event::TimeOver(slaves.0.0.as_slice()));
    }

    /// Tells that nothing that was read is a frame.
    pub fn tell_no_frames<R: Wait + Clock, E: Write>(
        &mut self,
        err: &mut E,
        rt: &R,
        format: Format,
    ) {
        self.tell(err, rt, &NoFrames(format), &Event::NoFrames);
    }

    /// Tells that a slave isn't booted though the operator asks for it, and why.
    pub fn tell_no_boot<R: Wait + Clock, E: Write>(
        &mut self,
        err: &mut E,
        rt: &R,
        id: NodeId,
        none: NoBoot,
    ) {
        self.tell(err, rt, &NoBootOf(id, none), &Event::NotBooted(id, none));
    }

    /// Tells that a line of the operator asks for nothing that there is.
    pub fn tell_bad_line<R: Wait + Clock, E: Write>(&mut self, err: &mut E, rt: &R, bad: BadLine) {
        self.tell(err, rt, &Bad(bad), &Event::BadLine);
    }
}
