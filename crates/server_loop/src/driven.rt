ghost use Rattle.std.specs.Prelude.{◌≡◌, ◌≤◌, ◌<◌, ◌^◌, ℕ, length, IfOk, IfSome, OnOk};
ghost use Rattle.proto_model.specs.Servers.{Config, ServerState, server_after};
ghost use Rattle.proto_model.specs.Sending.{next_message};
ghost use Rattle.proto_model.specs.Validity.{IsValidToNode, IsValidFromNode};
ghost use Rattle.server_loop.specs.Drives.{is_closed, MovesForward};

use proto_model::{FromNode, ToNode};
use std::alloc::AllocError;

/// A server, as far as a drive needs it.
pub trait Driven {
    ghost config: { Self → Config };

    ghost state: { Self → ServerState };

    /// How much the nodes lack, in some measure.
    ghost lack: { Self → ℕ };

    /// It is a number of 64 bits.
    ghost bound: { (server : Self) → lack server < 2 ^ 64 };

    fn nodes(&self) -> u8
        ensures value { result ≡ (config self.now).nodes }
        ensures few { result ≤ 7 };

    /// The length of the log.
    fn last(&self) -> u64
        ensures { result ≡ length (state self.now).log };

    fn is_closed(&self) -> bool
        ensures { result ≡ is_closed (state self.now).phase };

    /// The next message for a node, if there is one.
    fn next_for(&self, node: u8) -> Result<Option<ToNode>, AllocError>
        requires some { 1 ≤ node }
        requires within { node ≤ (config self.now).nodes }
        ensures value { IfOk result (λ m. m ≡ next_message (config self.now) (state self.now) node) }
        ensures valid { IfOk result (λ m. IfSome m IsValidToNode) };

    /// Takes a reply of a node. Answers that become due to earlier requests are not sent.
    fn receive(&mut self, node: u8, m: FromNode) -> Result<(), AllocError>
        requires some { 1 ≤ node }
        requires within { node ≤ (config self.old).nodes }
        requires valid { IsValidFromNode m }
        ensures value { OnOk result (state self.new ≡
            server_after (config self.old) (state self.old) node m) }
        ensures config { config self.new ≡ config self.old }

        // After the awaited reply to the node's next message the nodes lack less.
        ensures forward { OnOk result (MovesForward (config self.old) (state self.old) node m
            (lack self.old) (lack self.new)) };
}
