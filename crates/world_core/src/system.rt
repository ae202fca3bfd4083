use crate::clients::{build, next_ask, reboot_client, show_app};
use crate::deliver::{deliver, finish, within};
use crate::nodes::{crash_node, dump_node, node_status, tear_node};
use crate::numbers::{compare_and_set, keep, number_of, read_number};
use crate::one_log::{note_nodes, note_servers, show_log};
use crate::send::{send_all, send_one};
use crate::servers::{draw, messages, restart_server, show_server};
use crate::tally::{Row, grow};
use client_core::Client;
use kv_app::KvApp;
use net_model::{Cluster, Envelope, Event, Mail, Outcome, Party, Pool};
use partition_server::Server;
use proto_model::{BuildFault, Crashing, ToServer};
use session_register::{Cas, MemRegister};
use std::alloc::{AllocError, Global};
use std::marker::Model;
use tx_model::{Locks, OpText};

/// The nodes, servers and clients of a cluster, the register, and the envelopes that were sent.
#[derive(Drop)]
pub struct System<R: Crashing + Drop> {
    pub alloc: Global,
    pub cluster: Cluster,
    pub register: MemRegister,
    /// Of each server, the number that it keeps for its next compare-and-set.
    pub kept: [Option<u64>; 9],
    pub nodes: Vec<R>,
    pub servers: Vec<Server>,
    pub clients: Vec<Client<KvApp>>,
    pub pool: Pool,
}

impl<R: Crashing + Drop> Model for System<R> {
    ghost use Rattle.std.specs.Coded.{codes};
    ghost use Rattle.world_core.specs.Kept.{KeptSystem, application_code};

    ghost Value = { KeptSystem R };

    ghost coded = { Prim.hlevel (codes, application_code) };

    ghost view = { λ s. record {
      cluster = s.cluster;
      number = s.register;
      kept = s.kept;
      nodes = s.nodes.items;
      servers = s.servers.items;
      clients = s.clients.items;
      sent = s.pool.sent;
      cursor = s.pool.cursor;
    } };
}

impl<R: Crashing + Drop> System<R> {
    ghost use Rattle.std.specs.Prelude.{◌≡◌, IfOk, OnOk};
    ghost use Rattle.std.specs.List.{AllByRecursion};
    ghost use Rattle.net_model.specs.Clusters.{IsWithin};
    ghost use Rattle.net_model.specs.Events.{IsInRange};
    ghost use Rattle.net_model.specs.declared.event.Event.{Event as EventValue};
    ghost use Rattle.net_model.specs.declared.outcome.Outcome.{Outcome as OutcomeValue};
    ghost use Rattle.world_law.specs.Worlds.{WorldState};
    ghost use Rattle.world_law.specs.Runs.{WorldStep};
    ghost use Rattle.world_core.specs.Kept.{Shows, shown_of};
    ghost use Rattle.world_core.specs.Fit.{IsReady, IsRunning};
    ghost use Rattle.world_core.specs.Stepping.{Steps, Takes, IsStepped};
    ghost use Rattle.world_core.specs.Tallies.{IsRowOf};
    ghost use Rattle.world_core.specs.Told.{IsOfRun, IsTallied};

    // A server keeps the register's number.
    fn read(&mut self, v: u8) -> Outcome
        requires ready { IsReady R.is_faultless R.shown self.old }
        requires server { IsWithin self.old.cluster.servers v }
        ensures { Steps R.state R.files R.is_faultless R.shown self.old self.new (Event.Read v) result }
    {
        let number = read_number(&mut self.register);
        keep(&mut self.kept, v, Some(number));
        Outcome::Read(number)
    }

    // A server tries a compare-and-set from the number that it keeps, which is used up. Winning it begins a session.
    fn cas(&mut self, v: u8) -> Outcome
        requires ready { IsReady R.is_faultless R.shown self.old }
        requires server { IsWithin self.old.cluster.servers v }
        ensures { Steps R.state R.files R.is_faultless R.shown self.old self.new (Event.Cas v) result }
    {
        let kept = number_of(&self.kept, v);
        let Some(from) = kept else {
            return Outcome::Unread;
        };
        let answer = compare_and_set(&mut self.register, from);
        keep(&mut self.kept, v, None);
        match answer {
            Cas::Won(session) => {
                draw(&mut self.servers, self.cluster, v, session);
                Outcome::Won(session)
            }
            Cas::Lost(number) => Outcome::Lost(number),
            Cas::Exhausted => Outcome::Exhausted,
        }
    }

    // The same, of which the answer is lost.
    fn waste(&mut self, v: u8) -> Outcome
        requires ready { IsReady R.is_faultless R.shown self.old }
        requires server { IsWithin self.old.cluster.servers v }
        ensures { Steps R.state R.files R.is_faultless R.shown self.old self.new (Event.Waste v) result }
    {
        let kept = number_of(&self.kept, v);
        let Some(from) = kept else {
            return Outcome::Unread;
        };
        compare_and_set(&mut self.register, from);
        keep(&mut self.kept, v, None);
        let number = read_number(&mut self.register);
        Outcome::Wasted(number)
    }

    // A server sends its next message to each node that has one.
    fn tick(&mut self, v: u8) -> Result<Outcome, AllocError>
        requires ready { IsReady R.is_faultless R.shown self.old }
        requires server { IsWithin self.old.cluster.servers v }
        ensures { IfOk result (Steps R.state R.files R.is_faultless R.shown self.old self.new (Event.Tick v)) }
    {
        let made = messages(self.alloc, &self.servers, self.cluster, v)?;
        let outcome = send_all(self.alloc, &mut self.pool, made)?;
        Ok(outcome)
    }

    // The envelope at the cursor is delivered, and the cursor goes on.
    fn next(&mut self) -> Result<Outcome, AllocError>
        requires ready { IsReady R.is_faultless R.shown self.old }
        ensures { IfOk result (Steps R.state R.files R.is_faultless R.shown self.old self.new Event.Next) }
    {
        let number = self.pool.cursor();
        let Some(envelope) = self.pool.get(number) else {
            return Ok(Outcome::NoEnvelope);
        };
        let given = deliver(
            self.alloc,
            self.cluster,
            &mut self.nodes,
            &mut self.servers,
            &mut self.clients,
            envelope,
        )?;
        self.pool.advance();
        let outcome = finish(self.alloc, &mut self.pool, given)?;
        Ok(outcome)
    }

    // The cursor goes on.
    fn skip(&mut self) -> Outcome
        requires ready { IsReady R.is_faultless R.shown self.old }
        ensures { Steps R.state R.files R.is_faultless R.shown self.old self.new Event.Skip result }
    {
        let number = self.pool.cursor();
        let Some(_) = self.pool.get(number) else {
            return Outcome::NoEnvelope;
        };
        self.pool.advance();
        Outcome::Skipped(number)
    }

    // The envelope of a number is delivered.
    fn deliver(&mut self, number: u32) -> Result<Outcome, AllocError>
        requires ready { IsReady R.is_faultless R.shown self.old }
        ensures { IfOk result (Steps R.state R.files R.is_faultless R.shown self.old self.new (Event.Deliver number)) }
    {
        let Some(envelope) = self.pool.get(number) else {
            return Ok(Outcome::NoEnvelope);
        };
        let given = deliver(
            self.alloc,
            self.cluster,
            &mut self.nodes,
            &mut self.servers,
            &mut self.clients,
            envelope,
        )?;
        let outcome = finish(self.alloc, &mut self.pool, given)?;
        Ok(outcome)
    }

    // The envelope of a number is delivered to its node, which stops within the step.
    fn tear(&mut self, number: u32, keep: u32) -> Result<Outcome, AllocError>
        requires ready { IsReady R.is_faultless R.shown self.old }
        ensures { IfOk result (Steps R.state R.files R.is_faultless R.shown self.old self.new (Event.Tear number keep)) }
    {
        let Some(envelope) = self.pool.get(number) else {
            return Ok(Outcome::NoEnvelope);
        };
        let Mail::ToNode(m) = &envelope.message else {
            return Ok(Outcome::NoEnvelope);
        };
        let Party::Node(i) = envelope.to else {
            return Ok(Outcome::NoEnvelope);
        };
        if !within(self.cluster.nodes, i) {
            return Ok(Outcome::NoEnvelope);
        }
        let s = tear_node(&mut self.nodes, i, m, keep)?;
        Ok(Outcome::Torn(i, s.promised, s.adopted, s.low, s.length))
    }

    // A node stops between two steps and loads again.
    fn crash(&mut self, i: u8) -> Result<Outcome, AllocError>
        requires ready { IsReady R.is_faultless R.shown self.old }
        requires node { IsWithin self.old.cluster.nodes i }
        ensures { IfOk result (Steps R.state R.files R.is_faultless R.shown self.old self.new (Event.Crash i)) }
    {
        let s = crash_node(&mut self.nodes, i)?;
        Ok(Outcome::Node(i, s.promised, s.adopted, s.low, s.length))
    }

    // A server starts again, and keeps no number.
    fn restart(&mut self, v: u8) -> Result<Outcome, AllocError>
        requires ready { IsReady R.is_faultless R.shown self.old }
        requires server { IsWithin self.old.cluster.servers v }
        ensures { IfOk result (Steps R.state R.files R.is_faultless R.shown self.old self.new (Event.Restart v)) }
    {
        restart_server(self.alloc, &mut self.servers, self.cluster, v)?;
        keep(&mut self.kept, v, None);
        Ok(Outcome::Idle(v))
    }

    // A client starts again. Its requests are numbered on.
    fn reboot(&mut self, c: u8) -> Outcome
        requires ready { IsReady R.is_faultless R.shown self.old }
        requires client { IsWithin self.old.cluster.clients c }
        ensures { Steps R.state R.files R.is_faultless R.shown self.old self.new (Event.Reboot c) result }
    {
        reboot_client(self.alloc, &mut self.clients, c);
        Outcome::Client(c, 0)
    }

    // A client builds a transaction and sends it to a server.
    fn append(
        &mut self,
        c: u8,
        v: u8,
        writes: &Locks,
        reads: &Locks,
        ops: &OpText,
    ) -> Result<Outcome, AllocError>
        requires ready { IsReady R.is_faultless R.shown self.old }
        requires client { IsWithin self.old.cluster.clients c }
        ensures { IfOk result (Steps R.state R.files R.is_faultless R.shown self.old self.new (Event.Append c v writes.now reads.now ops.now)) }
    {
        let writes = writes.copy(self.alloc)?.into_items();
        let reads = reads.copy(self.alloc)?.into_items();
        match build(&mut self.clients, c, writes, reads, ops.items()) {
            Ok(tx) => {
                let outcome = send_one(self.alloc, &mut self.pool, c, v, ToServer::Append(tx))?;
                Ok(outcome)
            }
            Err(BuildFault::Memory) => Err(AllocError),
            Err(fault) => Ok(Outcome::Refused(fault)),
        }
    }

    // A client sends its next ask to a server.
    fn ask(&mut self, c: u8, v: u8) -> Result<Outcome, AllocError>
        requires ready { IsReady R.is_faultless R.shown self.old }
        requires client { IsWithin self.old.cluster.clients c }
        ensures { IfOk result (Steps R.state R.files R.is_faultless R.shown self.old self.new (Event.Ask c v)) }
    {
        let m = next_ask(&self.clients, c);
        let outcome = send_one(self.alloc, &mut self.pool, c, v, m)?;
        Ok(outcome)
    }

    // A client asks a server up to which id the log is committed.
    fn flush(&mut self, c: u8, v: u8) -> Result<Outcome, AllocError>
        requires ready { IsReady R.is_faultless R.shown self.old }
        ensures { IfOk result (Steps R.state R.files R.is_faultless R.shown self.old self.new (Event.Flush c v)) }
    {
        let outcome = send_one(self.alloc, &mut self.pool, c, v, ToServer::Flush)?;
        Ok(outcome)
    }

    // A node's state.
    fn show(&self, i: u8) -> Outcome
        requires ready { IsReady R.is_faultless R.shown self.now }
        requires node { IsWithin self.now.cluster.nodes i }
        ensures { Steps R.state R.files R.is_faultless R.shown self.now self.now (Event.Show i) result }
    {
        let s = node_status(&self.nodes, i);
        Outcome::Node(i, s.promised, s.adopted, s.low, s.length)
    }

    // A server's state.
    fn server(&self, v: u8) -> Outcome
        requires ready { IsReady R.is_faultless R.shown self.now }
        requires server { IsWithin self.now.cluster.servers v }
        ensures { Steps R.state R.files R.is_faultless R.shown self.now self.now (Event.Server v) result }
    {
        show_server(&self.servers, self.cluster, v)
    }

    // A client's mark and application.
    fn app(&self, c: u8) -> Result<Outcome, AllocError>
        requires ready { IsReady R.is_faultless R.shown self.now }
        requires client { IsWithin self.now.cluster.clients c }
        ensures { IfOk result (Steps R.state R.files R.is_faultless R.shown self.now self.now (Event.App c)) }
    {
        let outcome = show_app(&self.clients, c)?;
        Ok(outcome)
    }

    // Bytes of a node's file.
    fn dump(&self, i: u8, file: u32, at: u32) -> Result<Outcome, AllocError>
        requires ready { IsReady R.is_faultless R.shown self.now }
        requires node { IsWithin self.now.cluster.nodes i }
        ensures { IfOk result (Steps R.state R.files R.is_faultless R.shown self.now self.now (Event.Dump i file at)) }
    {
        let outcome = dump_node(self.alloc, &self.nodes, i, file, at)?;
        Ok(outcome)
    }

    // Lets an event happen that is not `log`. After want of memory nothing is promised.
    fn happen(&mut self, e: &Event) -> Result<Outcome, AllocError>
        requires ready { IsReady R.is_faultless R.shown self.old }
        requires in_range { IsInRange self.old.cluster e.now }
        requires stepped { IsStepped e.now }
        ensures { IfOk result (Steps R.state R.files R.is_faultless R.shown self.old self.new e.now) }
    {
        match e {
            Event::Read(v) => Ok(self.read(*v)),
            Event::Cas(v) => Ok(self.cas(*v)),
            Event::Waste(v) => Ok(self.waste(*v)),
            Event::Tick(v) => self.tick(*v),
            Event::Next => self.next(),
            Event::Skip => Ok(self.skip()),
            Event::Deliver(number) => self.deliver(*number),
            Event::Tear(number, keep) => self.tear(*number, *keep),
            Event::Crash(i) => self.crash(*i),
            Event::Restart(v) => self.restart(*v),
            Event::Reboot(c) => Ok(self.reboot(*c)),
            Event::Append(c, v, writes, reads, ops) => self.append(*c, *v, writes, reads, ops),
            Event::Ask(c, v) => self.ask(*c, *v),
            Event::Flush(c, v) => self.flush(*c, *v),
            Event::Show(i) => Ok(self.show(*i)),
            Event::Server(v) => Ok(self.server(*v)),
            Event::App(c) => self.app(*c),
            Event::Log(_) => unreachable!(),
            Event::Dump(i, file, at) => self.dump(*i, *file, *at),
        }
    }

    /// Lets an event happen, where these are the rows. After want of memory nothing is promised.
    pub fn take(&mut self, rows: &Vec<Row>, e: &Event) -> Result<Outcome, AllocError>
        requires ready { IsReady R.is_faultless R.shown self.old }
        requires rows { AllByRecursion (IsRowOf self.old.cluster.nodes) rows.now.items }
        requires in_range { IsInRange self.old.cluster e.now }
        ensures { IfOk result (Takes R.state R.files R.is_faultless R.shown self.old self.new rows.now.items e.now) }
    {
        match e {
            Event::Log(from) => {
                let outcome = show_log(self.alloc, rows, self.cluster.nodes, *from)?;
                Ok(outcome)
            }
            _ => {
                let outcome = self.happen(e)?;
                Ok(outcome)
            }
        }
    }

    /// Notes in the rows what an event made of the votes and the books: the votes that the nodes have now, and the logs of
    /// the servers. After want of memory nothing is promised.
    pub fn note(&mut self, rows: &mut Vec<Row>) -> Result<(), AllocError>
        requires running { IsRunning R.is_faultless R.shown self.old }
        requires rows { AllByRecursion (IsRowOf self.old.cluster.nodes) rows.old.items }
        ensures same { self.new ≡ self.old }
        ensures rows { AllByRecursion (IsRowOf self.old.cluster.nodes) rows.new.items }
        ensures tallied { OnOk result ((w after : WorldState) (e : EventValue) (o : OutcomeValue) → IsOfRun w → WorldStep w e o after →
            Shows (shown_of R.state R.files self.old) after → IsTallied rows.old.items w → IsTallied rows.new.items after) }
    {
        let number = read_number(&mut self.register);
        grow(self.alloc, rows, self.cluster.nodes, number)?;
        note_nodes(rows, self.cluster.nodes, &self.nodes);
        note_servers(rows, &self.servers)?;
        Ok(())
    }
}
