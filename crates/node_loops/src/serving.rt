ghost use Rattle.std.specs.Prelude.{◌≡◌, ℕ, Option, Err, IfOk, IfErr, IfSome, IsOk};
ghost use Rattle.wire_codec.specs.Spelling.{IsValidMessage};
ghost use Rattle.wire_codec.specs.declared.message.Message.{Message as MessageValue};
ghost use Rattle.node_loops.specs.declared.requests.Asked.{Asked as AskedValue};
ghost use Rattle.node_loops.specs.declared.end.End.{End as EndValue};
ghost use Rattle.node_loops.specs.Ends.{IsFailing, IsClosing, IsOwn, IsBlind, Counts};
ghost use Rattle.node_loops.specs.Requests.{IsValidAsked};
ghost use Rattle.node_loops.specs.Serving.{Replying, Failing};

use crate::{Asked, End};
use wire_codec::Message;

/// What serves requests of the family `M`, one at a time.
pub trait Serving<M> {
    /// The reply to what is asked, and what serves then.
    ghost replies: { AskedValue → MessageValue → Self → Self → Type 0 };

    /// How it fails at what is asked, and what it is then.
    ghost fails: { AskedValue → EndValue → Self → Self → Type 0 };

    /// The end that it comes to after an answer, where it serves no longer.
    ghost over: { Self → Option EndValue };

    /// Whether it can serve.
    ghost works: { Self → Type 0 };

    /// How often its device has failed, up to the greatest `u64`.
    ghost faults: { Self → ℕ };

    /// What it doesn't tell, where it may come to this end.
    ghost blind: { Self → EndValue → Type 0 };

    /// What it tells of itself at an end.
    ghost own: { Self → EndValue → Type 0 };

    /// The reply to what is asked, or the end at which there is none.
    fn reply_to(&mut self, asked: Asked) -> Result<Message, End>
        requires valid { IsValidAsked asked }
        requires works { works self.old }
        ensures replied { IfOk result (λ reply. replies asked reply self.old self.new) }
        ensures valid { IfOk result IsValidMessage }
        ensures works { IsOk result → works self.new }
        ensures failed { IfErr result (λ end. fails asked end self.old self.new) }

        // Each end by its cause.
        ensures ends { IfErr result IsFailing }
        ensures disk { Counts (faults self.old) (faults self.new) (result ≡ Err End.Disk) }
        ensures blind { IsOk result → (end : EndValue) → blind self.new end → blind self.old end }
        ensures is_blind { IfErr result (λ end. IsBlind end → blind self.old end) }
        ensures own { IfErr result (λ end. IsOwn end → own self.new end) };

    /// The end after an answered turn, where it serves no longer.
    fn end(&self) -> Option<End>
        ensures value { result ≡ over self.now }
        ensures ends { IfSome result IsClosing }
        ensures own { IfSome result (λ end. own self.now end) };
}
