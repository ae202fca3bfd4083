ghost use Rattle.std.specs.Prelude.{◌≡◌, option_to_list, length, IfOk, OnOk, IfSome, IfNone};
ghost use Rattle.tx_model.specs.Records.{IsPlace};
ghost use Rattle.proto_model.specs.Servers.{drawn, commit_mark};
ghost use Rattle.proto_model.specs.Serving.{served_after, served_answers};
ghost use Rattle.proto_model.specs.Validity.{IsValidToServer, IsValidFromServer};

use crate::Driven;
use proto_model::{FromServer, Phase, ToServer};
use std::alloc::AllocError;

/// A server, as far as its command needs it.
pub trait Host: Driven {
    /// The server won a session.
    fn drew(&mut self, session: u64)
        requires { IsPlace session }
        ensures state { Self.state self.new ≡ drawn session }
        ensures config { Self.config self.new ≡ Self.config self.old };

    fn phase(&self) -> Phase
        ensures { result ≡ (Self.state self.now).phase };

    /// The length that a quorum holds.
    fn committed(&self) -> u64
        ensures { result ≡ commit_mark (Self.config self.now) (Self.state self.now) };

    /// Takes a client's request. It is answered at once, except for an append that is assigned the log's last id.
    fn serve(&mut self, m: ToServer) -> Result<Option<FromServer>, AllocError>
        requires { IsValidToServer m }
        ensures answers { IfOk result (λ answer. option_to_list answer ≡
            served_answers (Self.config self.old) (Self.state self.old) m) }
        ensures after { OnOk result (Self.state self.new ≡
            served_after (Self.config self.old) (Self.state self.old) m) }
        ensures config { Self.config self.new ≡ Self.config self.old }
        ensures valid { IfOk result (λ answer. IfSome answer IsValidFromServer) }
        ensures assigned { IfOk result (λ answer. IfNone answer (IsPlace (length (Self.state self.new).log))) };
}
