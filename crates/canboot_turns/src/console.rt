//! What a live run does for its operator.

ghost use Rattle.std.specs.Prelude.{◌≡◌, ◌<◌, ◌^◌, ◌++◌, ◌∷◌, [], Err, IfOk, Some};
ghost use Rattle.cm_operator.specs.Console.{asked_by};
ghost use Rattle.cm_receiving.specs.Places.{LineStandsIn};
ghost use Rattle.cm_netlist.specs.Network.{Network as NetworkList};
ghost use Rattle.cm_watched.specs.Pasts.{Past};
ghost use Rattle.cm_watch.specs.Watches.{Watches};
ghost use Rattle.cm_watched.specs.declared.settings.Settings.{Settings as WatchSettings};
ghost use Rattle.cm_receiving.specs.declared.notification.Notification.TheVariants.{Typed};
ghost use Rattle.cm_crew.specs.CallsMade.{calls_made};
ghost use Rattle.canboot_turns.specs.Causes.{IsAskedToEnd, stand_of};
ghost use Rattle.canboot_turns.specs.Going.{Follows, HasQuit, HasTaken};
ghost use Rattle.canboot_turns.specs.Asking.{asked_of, asked_unless, calls_asked, is_start_of_all, no_boot_of};
ghost use Rattle.cm_operator.specs.declared.console.Command.TheVariants.{Start};

use crate::ending::Ending;
use crate::progress::LiveCourse;
use crate::register::LiveRegister;
use crate::versions::report_seen;
use crate::watching::Watcher;
use cm_crew::TypedFault;
use cm_history::Call;
use cm_netlist::Network;
use cm_nmt::NodeId;
use cm_operator::{BadLine, Command, TypedLine, read_command};
use cm_receiving::BusName;
use cm_register::{RunName, Seat};
use cm_telling::NoBoot;
use cm_versions::VersionReader;
use cm_watch::Watch;
use cm_watched::Happening;
use cm_words::say;
use std::alloc::Global;
use std::io::{self, Write};
use std::sync::Wait;
use std::time::Clock;

/// What there is to type, one line each.
const TYPING: &str = "start                  start the network again, once it was halted or stopped
boot NODE              boot a slave now
stop, stop NODE        stop all nodes, or one; so start NODE, reset NODE, preop NODE
request TARGET VALUE   4 stop, 5 start, 6 reset node, 7 reset communication, 127 pre-operational; \
TARGET is a node, or 128 for all
read NODE              the state of a node
hold NODE              take a slave out of booting, and stop it
release NODE           give it back
lost NODE              say that a slave is lost
status                 the report so far
help                   this
quit, exit             end the run
Numbers are decimal, or hexadecimal behind 0x.";

/// Writes a text a line at a time, since each write that ends a line gets its time.
fn write_lines<E: Write>(err: &mut E, text: &[u8]) -> io::Result<()> {
    for line in text.split_inclusive(|byte| *byte == b'\n') {
        err.write_all(line)?;
    }
    Ok(())
}

/// Why the slave isn't booted though the operator asks for it; none where the watch is asked.
fn no_boot(network: &Network, watch: &Watch, id: NodeId) -> Option<NoBoot>
    ensures { (s : WatchSettings) (past : Past) → Watches watch.now network.now s past
        → result ≡ no_boot_of network.now past id }
{
    if !network.listed(id) {
        Some(NoBoot::NotListed)
    } else if watch.phase().is_halted() {
        Some(NoBoot::Halted)
    } else if watch.is_held(id) {
        Some(NoBoot::Held)
    } else if watch.is_booted(id) {
        Some(NoBoot::Booted)
    } else {
        None
    }
}

/// Whether the network is started by a request to all nodes: where all are stopped, but it isn't halted.
fn is_start_of_all(watch: &Watch) -> bool
    ensures { (net : NetworkList) (s : WatchSettings) (past : Past) → Watches watch.now net s past
        → result ≡ is_start_of_all net past }
{
    watch.is_stopped() && !watch.phase().is_halted()
}

/// Shows the report of what has happened so far, of a version that has all that the operator's seat knows.
pub(crate) fn show_report<K: RunName, E: Write>(
    err: &mut E,
    alloc: Global,
    versions: &mut VersionReader<K>,
    network: &Network,
    seat: &Seat<K>,
)
    requires { network.now ≡ K.net }
{
    let mut text = Vec::new(alloc);
    let _ = if report_seen(versions, network, seat, &mut text) {
        write_lines(err, text.as_slice())
    } else {
        writeln!(err, "canboot: out of memory")
    };
}

impl<'w, 'a, 'n, R: Wait + Clock> LiveCourse<'w, 'a, 'n, R> {
    /// Asks the watch for a boot of the slave.
    fn boot_now<E: Write>(&mut self, err: &mut E, id: NodeId, now: u64)
        requires { now < 2 ^ 63 }
        ensures network { self.new.network ≡ self.old.network }
        ensures told { (s : WatchSettings) (past : Past) → Follows self.old.progress self.old.network.now s past
            → Follows self.new.progress self.old.network.now s
            (asked_unless (no_boot_of self.old.network.now past id) id now ++ past) }
    {
        match no_boot(self.network, &self.progress.watch, id) {
            Some(none) => self.teller.tell_no_boot(err, self.setting.rt, id, none),
            None => self.note(&Happening::Asked(id), now),
        }
    }

    /// Does what an operator asks for of the watch, and shows what there is to type; what else is asked for is left to whoever makes
    /// the calls.
    fn ask<E: Write>(&mut self, err: &mut E, command: &Command, now: u64)
        requires { now < 2 ^ 63 }
        ensures told { (s : WatchSettings) (past : Past) → Follows self.old.progress self.old.network.now s past
            → Follows self.new.progress self.old.network.now s
            (asked_of (Some command.now) self.old.network.now past now ++ past) }
        ensures network { self.new.network ≡ self.old.network }
    {
        match command {
            Command::Boot(id) => {
                let _in_range = id.get();
                self.boot_now(err, *id, now);
            }
            Command::Quit => self.note(&Happening::Ends(now), now),
            Command::Help => {
                let _ = say(err, &TYPING);
            }
            Command::Make(_) | Command::Request(_, _) | Command::Start | Command::Status => {}
        }
    }
}

impl<'w, 'a, 'n, R: Wait + Clock + Drop, K: RunName, B: BusName, M: LiveRegister<K, R>> Watcher<
    'w,
    'a,
    'n,
    R,
    K,
    B,
    M,
> {
    /// Makes the call that this line of the operator asks for.
    fn make_typed(&mut self, line: &TypedLine<B>, call: Call) -> Result<(), Ending>
        ensures made { IfOk result (λ _. calls_made self.new.operator ≡ calls_made self.old.operator ++ call ∷ []) }
        ensures course { self.new.course ≡ self.old.course }
        ensures heard { self.new.heard_upto ≡ self.old.heard_upto }
        ensures other { result ≡ Err Ending.Asked → ⊥ }
    {
        let rt = self.course.setting.rt;
        match self.operator.make(rt, self.register, line, call) {
            Ok(_) => Ok(()),
            Err(TypedFault::NotNext) => Err(Ending::OutOfOrder),
            Err(TypedFault::NotCalled(fault)) => Err(Ending::NotCalled(fault)),
        }
    }

    /// Starts the network: where all nodes are stopped, by a request to all.
    fn start(&mut self, line: &TypedLine<B>) -> Result<(), Ending>
        ensures made { (s : WatchSettings) (past : Past) → Follows self.old.course.progress self.old.course.network.now s past
            → IfOk result (λ _. calls_made self.new.operator
            ≡ calls_made self.old.operator ++ calls_asked (Some Start) self.old.course.network.now past) }
        ensures course { self.new.course ≡ self.old.course }
        ensures heard { self.new.heard_upto ≡ self.old.heard_upto }
        ensures other { result ≡ Err Ending.Asked → ⊥ }
    {
        if is_start_of_all(&self.course.progress.watch) {
            self.make_typed(line, Call::Request(128, 5))
        } else {
            self.make_typed(line, Call::StartNetwork)
        }
    }

    /// Does what the operator has typed next. Its line was sent before it was told that there is one, so it is waited for: a look that
    /// doesn't wait may miss it while the next one is sent. That none comes never comes.
    pub(crate) fn obey_next<E: Write>(&mut self, err: &mut E, now: u64) -> Result<(), Ending>
        requires { now < 2 ^ 63 }
        ensures obeyed { (s : WatchSettings) (past : Past) → Follows self.old.course.progress self.old.course.network.now s past
            → IfOk result (λ _. HasTaken Typed self.old.course.options.seconds B.typed
            self.new.course.progress self.old.course.network.now s past now self.old.operator self.new.operator) }
        ensures network { IfOk result (λ _. self.new.course.network ≡ self.old.course.network) }
        ensures heard { self.new.heard_upto ≡ self.old.heard_upto }
        ensures quits { result ≡ Err Ending.Asked → IsAskedToEnd B.format B.text B.typed (stand_of self.old) (stand_of self.new) }
    {
        match self.inputs.typed.recv(self.course.setting.rt) {
            Ok(line) => self.obey(err, &line, now),
            Err(_) => Err(Ending::OutOfOrder),
        }
    }

    /// Does what this line of the operator asks for. The end of the run is asked for behind what happened before: no step is made
    /// any more, and no other line obeyed.
    fn carry_out<E: Write>(
        &mut self,
        err: &mut E,
        line: &TypedLine<B>,
        command: &Command,
        now: u64,
    ) -> Result<(), Ending>
        requires { now < 2 ^ 63 }
        ensures made { (s : WatchSettings) (past : Past) → Follows self.old.course.progress self.old.course.network.now s past
            → IfOk result (λ _. calls_made self.new.operator
            ≡ calls_made self.old.operator ++ calls_asked (Some command.now) self.old.course.network.now past) }
        ensures told { (s : WatchSettings) (past : Past) → Follows self.old.course.progress self.old.course.network.now s past
            → IfOk result (λ _. Follows self.new.course.progress self.old.course.network.now s
            (asked_of (Some command.now) self.old.course.network.now past now ++ past)) }
        ensures network { IfOk result (λ _. self.new.course.network ≡ self.old.course.network) }
        ensures heard { self.new.heard_upto ≡ self.old.heard_upto }
        ensures quits { result ≡ Err Ending.Asked → HasQuit (Some command.now) now self.old.course.network.now
            self.old.course.progress self.old.operator self.new.course.progress self.new.operator }
    {
        self.course.ask(err, command, now);
        match command {
            Command::Make(call) => self.make_typed(line, *call),
            Command::Request(target, value) => self.make_typed(
                line,
                Call::Request(*target, *value),
            ),
            Command::Start => self.start(line),
            Command::Status => {
                self.is_report_due = true;
                Ok(())
            }
            Command::Boot(_) | Command::Help => Ok(()),
            Command::Quit => Err(Ending::Asked),
        }
    }

    /// Does what a line asks for that the operator has typed.
    fn obey<E: Write>(&mut self, err: &mut E, line: &TypedLine<B>, now: u64) -> Result<(), Ending>
        requires { now < 2 ^ 63 }
        ensures stands { LineStandsIn B.typed line.now.place line.now.line }
        ensures made { (s : WatchSettings) (past : Past) → Follows self.old.course.progress self.old.course.network.now s past
            → IfOk result (λ _. calls_made self.new.operator
            ≡ calls_made self.old.operator ++ calls_asked (asked_by line.now.line) self.old.course.network.now past) }
        ensures told { (s : WatchSettings) (past : Past) → Follows self.old.course.progress self.old.course.network.now s past
            → IfOk result (λ _. Follows self.new.course.progress self.old.course.network.now s
            (asked_of (asked_by line.now.line) self.old.course.network.now past now ++ past)) }
        ensures network { IfOk result (λ _. self.new.course.network ≡ self.old.course.network) }
        ensures heard { self.new.heard_upto ≡ self.old.heard_upto }
        ensures quits { result ≡ Err Ending.Asked → HasQuit (asked_by line.now.line) now self.old.course.network.now
            self.old.course.progress self.old.operator self.new.course.progress self.new.operator }
    {
        match read_command(line.line()) {
            Ok(command) => self.carry_out(err, line, &command, now),
            Err(BadLine::Empty) => Ok(()),
            Err(bad) => {
                let rt = self.course.setting.rt;
                self.course.teller.tell_bad_line(err, rt, bad);
                Ok(())
            }
        }
    }
}
