use proto_model::ToNode;

/// A message for a node, without the records of the log that it is to carry.
#[derive(Drop)]
pub enum Draft {
    /// The message itself.
    Message(ToNode),
    /// A Stage of the log's records after the first id and up to the second one, eight at most.
    Stage(u64, u64),
    /// The node has adopted: it gets the records that it lacks, or else the commit mark.
    Adopted,
}
