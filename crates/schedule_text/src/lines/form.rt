ghost use Rattle.std.specs.Prelude.{◌≡◌, ◌≤◌, true, false, length};

use net_model::Cluster;
use std::fmt;

/// What a number of a line is, by its name in the table of the forms.
#[derive(Clone, Copy, Debug, PartialEq, Eq)]
pub enum Name {
    Nodes,
    Servers,
    Clients,
    Rows,
    Slots,
    Server,
    Client,
    Node,
    Envelope,
    Bytes,
    From,
    File,
    At,
}

impl Name {
    ghost use Rattle.schedule_text.specs.Forms.{name_text, least, most};

    /// The name as a fault prints it.
    pub fn text(self) -> &'static str
        ensures { result.now ≡ name_text self }
    {
        match self {
            Name::Nodes => "nodes",
            Name::Servers => "servers",
            Name::Clients => "clients",
            Name::Rows => "rows",
            Name::Slots => "slots",
            Name::Server => "server",
            Name::Client => "client",
            Name::Node => "node",
            Name::Envelope => "envelope",
            Name::Bytes => "bytes",
            Name::From => "from",
            Name::File => "file",
            Name::At => "at",
        }
    }

    /// The least number of this name that is in range.
    pub fn least(self) -> u64
        ensures { result ≡ least self }
    {
        match self {
            Name::Bytes | Name::File | Name::At => 0,
            _ => 1,
        }
    }

    /// The greatest number of this name that is in range.
    pub fn most(self, cluster: &Cluster) -> u64
        ensures { result ≡ most cluster.now self }
    {
        match self {
            Name::Nodes => 7,
            Name::Servers | Name::Clients => 9,
            Name::Rows => 8,
            Name::Slots => 4096,
            Name::Server => u64::from(cluster.servers),
            Name::Client => u64::from(cluster.clients),
            Name::Node => u64::from(cluster.nodes),
            Name::Envelope | Name::File | Name::At => u64::from(u32::MAX),
            Name::Bytes => 1_000_000,
            Name::From => (1 << 48) - 1,
        }
    }
}

impl fmt::Display for Name {
    ghost use Rattle.std.specs.Prelude.{Some};
    ghost use Rattle.schedule_text.specs.Forms.{name_text};

    ghost output = { λ name. Some (name_text name) };

    fn fmt<W: fmt::Write>(&self, f: &mut fmt::Formatter<W>) -> fmt::Result {
        f.write_str(self.text())
    }
}

/// How many numbers a line has at most.
pub(crate) const MAX_NUMBERS: usize = 5;

/// What a form's line is made of: its first word, its numbers, and then two lists of keys and ops, if it has them.
#[derive(Clone, Copy)]
pub(crate) struct Row {
    pub word: &'static [u8],
    pub names: &'static [Name],
    pub lists: bool,
}

// A line of a word and numbers.
fn plain(word: &'static [u8], names: &'static [Name]) -> Row
    ensures word { result.word.now ≡ word.now }
    ensures names { result.names.now ≡ names.now }
    ensures no_lists { result.lists ≡ false }
{
    Row {
        word,
        names,
        lists: false,
    }
}

// A line of a word, numbers, two lists of keys and ops.
fn with_lists(word: &'static [u8], names: &'static [Name]) -> Row
    ensures word { result.word.now ≡ word.now }
    ensures names { result.names.now ≡ names.now }
    ensures with_lists { result.lists ≡ true }
{
    Row {
        word,
        names,
        lists: true,
    }
}

/// The forms of lines: that of a first line, one for each kind of event, and one for each kind of line of a script.
#[derive(Clone, Copy)]
pub(crate) enum Form {
    Cluster,
    Read,
    Cas,
    Waste,
    Tick,
    Next,
    Skip,
    Deliver,
    Tear,
    Crash,
    Restart,
    Reboot,
    Append,
    Ask,
    Flush,
    Show,
    Server,
    App,
    Log,
    Dump,
    ScriptAppend,
    ScriptSync,
    ScriptApp,
    ScriptFlush,
}

/// The form of a first line.
pub(crate) const FIRST: [Form; 1] = [Form::Cluster];

/// The forms of every further line.
pub(crate) const EVENTS: [Form; 19] = [
    Form::Read,
    Form::Cas,
    Form::Waste,
    Form::Tick,
    Form::Next,
    Form::Skip,
    Form::Deliver,
    Form::Tear,
    Form::Crash,
    Form::Restart,
    Form::Reboot,
    Form::Append,
    Form::Ask,
    Form::Flush,
    Form::Show,
    Form::Server,
    Form::App,
    Form::Log,
    Form::Dump,
];

/// The forms of the lines of a script.
pub(crate) const SCRIPT: [Form; 4] = [
    Form::ScriptAppend,
    Form::ScriptSync,
    Form::ScriptApp,
    Form::ScriptFlush,
];

impl Form {
    ghost use Rattle.schedule_text.specs.Forms.{row_of};

    /// The table of the forms.
    pub(crate) fn row(self) -> Row
        ensures word { result.word.now ≡ (row_of self).word }
        ensures names { result.names.now ≡ (row_of self).names }
        ensures lists { result.lists ≡ (row_of self).lists }
        ensures few { length result.names.now ≤ MAX_NUMBERS }
    {
        use Name::*;
        match self {
            Form::Cluster => plain(b"cluster", &[Nodes, Servers, Clients, Rows, Slots]),
            Form::Read => plain(b"read", &[Server]),
            Form::Cas => plain(b"cas", &[Server]),
            Form::Waste => plain(b"waste", &[Server]),
            Form::Tick => plain(b"tick", &[Server]),
            Form::Next => plain(b"next", &[]),
            Form::Skip => plain(b"skip", &[]),
            Form::Deliver => plain(b"deliver", &[Envelope]),
            Form::Tear => plain(b"tear", &[Envelope, Bytes]),
            Form::Crash => plain(b"crash", &[Node]),
            Form::Restart => plain(b"restart", &[Server]),
            Form::Reboot => plain(b"reboot", &[Client]),
            Form::Append => with_lists(b"append", &[Client, Server]),
            Form::Ask => plain(b"ask", &[Client, Server]),
            Form::Flush => plain(b"flush", &[Client, Server]),
            Form::Show => plain(b"show", &[Node]),
            Form::Server => plain(b"server", &[Server]),
            Form::App => plain(b"app", &[Client]),
            Form::Log => plain(b"log", &[From]),
            Form::Dump => plain(b"dump", &[Node, File, At]),
            Form::ScriptAppend => with_lists(b"append", &[]),
            Form::ScriptSync => plain(b"sync", &[]),
            Form::ScriptApp => plain(b"app", &[]),
            Form::ScriptFlush => plain(b"flush", &[]),
        }
    }
}
