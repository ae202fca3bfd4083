/// How many nodes, servers and clients there are, and the shape of the lock tables.
#[derive(Clone, Copy, PartialEq, Eq)]
pub struct Cluster {
    pub nodes: u8,
    pub servers: u8,
    pub clients: u8,
    pub rows: u8,
    pub slots: u32,
}
