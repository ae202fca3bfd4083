ghost use Rattle.std.specs.Prelude.{◌≡◌, ◌≤◌, ◌<◌, take, drop, length, IfOk, IfSome};
ghost use Rattle.std.specs.List.{AllByRecursion};
ghost use Rattle.proto_model.specs.Sending.{append_message, next_message, next_messages};
ghost use Rattle.proto_model.specs.Validity.{IsValidToNode};
ghost use Rattle.partition_server.specs.Held.{config_of, state_of};

use super::Server;
use proto_model::ToNode;
use session_recovery::Draft;
use std::alloc::AllocError;

impl Server {
    // To a node that lacks records of the chosen log.
    fn stage_message(&self, from: u64, upto: u64) -> Result<ToNode, AllocError>
        requires some { from < upto }
        requires within { upto ≤ length self.now.log }
        ensures { IfOk result (λ m. m ≡ ToNode.Stage (state_of self.now).session
            (take 8 (drop from (take upto self.now.log)))) }
    {
        let batch = self.log.batch_after(from, upto)?;
        Ok(ToNode::Stage(self.nodes.session(), batch))
    }

    // To a node that has adopted.
    fn append_message(&self, node: u8) -> Result<Option<ToNode>, AllocError>
        requires { node ≤ (config_of self.now).nodes }
        ensures { IfOk result (λ m.
            m ≡ append_message (config_of self.now) (state_of self.now) node) }
    {
        let acked = self.acks.acked(node);
        let last = self.log.len();
        if acked < last {
            let batch = self.log.batch_after(acked, last)?;
            return Ok(Some(ToNode::Append(self.nodes.session(), batch)));
        }
        let committed = self.committed();
        if self.nodes.low(node) < committed {
            return Ok(Some(ToNode::Low(self.nodes.session(), committed)));
        }
        Ok(None)
    }

    /// The next message for a node, if there is one. It changes nothing: the same message is sent again, until a reply
    /// comes that makes it needless.
    pub fn next_for(&self, node: u8) -> Result<Option<ToNode>, AllocError>
        requires some { 1 ≤ node }
        requires within { node ≤ (config_of self.now).nodes }
        ensures value { IfOk result (λ m.
            m ≡ next_message (config_of self.now) (state_of self.now) node) }
        ensures valid { IfOk result (λ m. IfSome m IsValidToNode) }
    {
        match self.nodes.next_for(self.log.len(), node) {
            None => Ok(None),
            Some(Draft::Message(m)) => Ok(Some(m)),
            Some(Draft::Stage(from, upto)) => {
                let m = self.stage_message(from, upto)?;
                Ok(Some(m))
            }
            Some(Draft::Adopted) => self.append_message(node),
        }
    }

    /// The next messages for all nodes, each with its node, in the order of the nodes.
    pub fn tick(&self) -> Result<Vec<(u8, ToNode)>, AllocError>
        ensures value { IfOk result (λ sent. sent.items ≡
            next_messages (config_of self.now) (state_of self.now) (config_of self.now).nodes) }
        ensures valid { IfOk result (λ sent. AllByRecursion (λ s. IsValidToNode s.1) sent.items) }
    {
        let mut sent = Vec::new(self.alloc);
        for node in 1..self.nodes.count() + 1 {
            if let Some(m) = self.next_for(node)? {
                sent.push((node, m))?;
            }
        }
        Ok(sent)
    }
}
