use tx_model::{Locks, OpText};

/// What happens next, with the values of its line of a schedule in their order.
#[derive(Drop)]
pub enum Event {
    /// A server reads the register and keeps the number.
    Read(u8),
    /// A server tries a compare-and-set from the number that it keeps, which is used up. Winning it begins a session.
    Cas(u8),
    /// The same, of which the answer is lost.
    Waste(u8),
    /// A server sends its next message to each node that has one.
    Tick(u8),
    /// The envelope at the cursor is delivered, and the cursor goes on.
    Next,
    /// The cursor goes on.
    Skip,
    /// The envelope of this number is delivered.
    Deliver(u32),
    /// The envelope of this number is delivered to its node, which stops once it has written so many bytes.
    Tear(u32, u32),
    /// A node stops between two steps and loads again.
    Crash(u8),
    /// A server is idle and keeps no number.
    Restart(u8),
    /// A client is at mark 0 with an empty application. Its requests are numbered on.
    Reboot(u8),
    /// A client builds a transaction and sends it to a server: client, server, write locks, read locks, ops.
    Append(u8, u8, Locks, Locks, OpText),
    /// A client sends its next ask to a server: client, server.
    Ask(u8, u8),
    /// A client asks a server up to which id the log is committed: client, server.
    Flush(u8, u8),
    /// A node's state is shown.
    Show(u8),
    /// A server's state is shown.
    Server(u8),
    /// A client's mark and application are shown.
    App(u8),
    /// The one log is shown from this id on.
    Log(u64),
    /// Bytes of a node's file are shown: node, file, place.
    Dump(u8, u32, u32),
}
