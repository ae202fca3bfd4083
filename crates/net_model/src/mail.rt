use proto_model::{FromNode, FromServer, ToNode, ToServer};

/// Who sends an envelope, or gets it. Each kind is numbered from 1.
#[derive(Clone, Copy, PartialEq, Eq)]
pub enum Party {
    Node(u8),
    Server(u8),
    Client(u8),
}

/// What an envelope holds.
#[derive(Drop)]
pub enum Mail {
    ToNode(ToNode),
    FromNode(FromNode),
    ToServer(ToServer),
    FromServer(FromServer),
}

/// A message on its way. It may be delivered any number of times.
#[derive(Drop)]
pub struct Envelope {
    pub from: Party,
    pub to: Party,
    pub message: Mail,
}
