ghost use Rattle.std.specs.Prelude.{◌≡◌, ◌≢◌, ◌<◌, ◌≤◌, ◌+◌, IfSome, IfNone};
ghost use Rattle.schedule_replay.specs.Numbered.{next_state, drawn, by_draw, numbered_from, numbered_cluster};
ghost use Rattle.schedule_replay.specs.Drawing.{event_of};

use crate::drawn::DrawnEvent;
use net_model::Cluster;

const MULTIPLIER: u64 = 6_364_136_223_846_793_005;

const INCREMENT: u64 = 1_442_695_040_888_963_407;

/// The cluster of the schedule of each number.
pub fn numbered_cluster() -> Cluster
    ensures { result ≡ numbered_cluster }
{
    Cluster {
        nodes: 5,
        servers: 2,
        clients: 4,
        rows: 2,
        slots: 64,
    }
}

/// The generator of a schedule's events.
#[derive(Drop)]
pub struct Draws {
    state: u64,
}

impl Draws {
    pub fn new(number: u64) -> Draws
        ensures { result.state ≡ number }
    {
        Draws { state: number }
    }

    // One of so many numbers from 0.
    fn draw(&mut self, count: u64) -> u64
        requires { 0 < count }
        ensures drawn { result ≡ drawn self.old.state count }
        ensures less { result < count }
        ensures state { self.new.state ≡ next_state self.old.state }
    {
        self.state = self.state.wrapping_mul(MULTIPLIER).wrapping_add(INCREMENT);
        (self.state >> 33) % count
    }

    // A number from 1 to the most.
    fn one_of(&mut self, most: u32) -> u32
        requires { 0 < most }
        ensures drawn { result ≡ 1 + drawn self.old.state most }
        ensures fits { result ≤ most }
        ensures state { self.new.state ≡ next_state self.old.state }
    {
        1 + self.draw(u64::from(most)) as u32
    }

    // A server, one time in eight.
    fn rare_server(&mut self) -> Option<u8>
        ensures some { IfSome result (λ server. (drawn self.old.state 8 ≡ 0)
            × (server ≡ 1 + drawn (next_state self.old.state) 2)
            × (self.new.state ≡ next_state (next_state self.old.state))) }
        ensures none { IfNone result
            ((drawn self.old.state 8 ≢ 0) × (self.new.state ≡ next_state self.old.state)) }
    {
        if self.draw(8) != 0 {
            return None;
        }
        Some(self.one_of(2) as u8)
    }

    // The event of this line, for which this was drawn.
    fn choose(&mut self, line: u32, drawn: u64) -> DrawnEvent
        requires { 0 < line }
        ensures event { event_of result ≡ (by_draw line drawn self.old.state).event }
        ensures state { self.new.state ≡ (by_draw line drawn self.old.state).state }
    {
        match drawn {
            48 => DrawnEvent::Skip,
            49..=51 => DrawnEvent::Tick(self.one_of(2) as u8),
            52 | 53 => {
                let client = self.one_of(4) as u8;
                let server = self.one_of(2) as u8;
                DrawnEvent::Append(client, server, self.draw(10) as u8)
            }
            54..=56 => {
                let client = self.one_of(4) as u8;
                DrawnEvent::Ask(client, self.one_of(2) as u8)
            }
            57 => DrawnEvent::Deliver(self.one_of(line)),
            58 | 59 => DrawnEvent::Crash(self.one_of(5) as u8),
            60 => match self.rare_server() {
                Some(server) => DrawnEvent::Read(server),
                None => DrawnEvent::Next,
            },
            61 => match self.rare_server() {
                Some(server) => DrawnEvent::Cas(server),
                None => DrawnEvent::Next,
            },
            _ => DrawnEvent::Next,
        }
    }

    /// The next event, whose line is the one of this number, the first line left out.
    pub fn next(&mut self, line: u32) -> DrawnEvent
        requires { 0 < line }
        ensures event { event_of result ≡ (numbered_from line self.old.state).event }
        ensures state { self.new.state ≡ (numbered_from line self.old.state).state }
    {
        match line {
            1 => DrawnEvent::Read(1),
            2 => DrawnEvent::Cas(1),
            _ => {
                let drawn = self.draw(64);
                self.choose(line, drawn)
            }
        }
    }
}
