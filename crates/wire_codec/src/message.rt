use proto_model::{FromNode, FromServer, ToNode, ToServer};

/// A message of any family.
#[derive(Drop)]
pub enum Message {
    /// Family 1: from a server to a storage node.
    ToNode(ToNode),
    /// Family 2: from a storage node to a server.
    FromNode(FromNode),
    /// Family 3: from a client to a server.
    ToServer(ToServer),
    /// Family 4: from a server to a client.
    FromServer(FromServer),
    /// Family 5: from a server to the register of sessions.
    ToRegister(ToRegister),
    /// Family 6: from the register of sessions to a server.
    FromRegister(FromRegister),
    /// Family 7: between a command that serves and whoever calls it.
    Control(Control),
}

/// What a server asks of the register of sessions.
#[derive(Clone, Copy, PartialEq, Eq)]
pub enum ToRegister {
    /// Asks for the number.
    Read,
    /// Asks to raise the number by one, where it is this.
    Cas(u64),
}

/// What the register of sessions answers.
#[derive(Clone, Copy, PartialEq, Eq)]
pub enum FromRegister {
    /// The number.
    Value(u64),
    /// The number was raised to this.
    Won(u64),
    /// The number is this, and was not raised.
    Lost(u64),
    /// The number is the greatest one.
    Exhausted,
}

/// What is said about serving itself.
#[derive(Clone, Copy, PartialEq, Eq)]
pub enum Control {
    /// Asks to serve no longer.
    Bye,
    /// Answers `Bye`.
    Done,
    /// Answers what is no request.
    No,
}
