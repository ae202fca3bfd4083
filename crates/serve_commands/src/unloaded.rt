ghost use Rattle.std.specs.Prelude.{◌≡◌};
ghost use Rattle.serve_commands.specs.Ends.{end_of};

use disk_model::LoadFault;
use node_loops::End;

/// The end of a command whose disk could not be loaded.
pub fn end_of(fault: LoadFault) -> End
    ensures { result ≡ end_of fault }
{
    match fault {
        LoadFault::Disk => End::Disk,
        LoadFault::Damaged(file, at) => End::Damaged(file, at),
        LoadFault::Memory => End::Memory,
    }
}
