ghost use Rattle.std.specs.Prelude.{◌≡◌, ◌<◌, ◌≤◌, length, IfSome, IfNone};
ghost use Rattle.io_core.specs.Rooms.{shown_in};

/// Copies the bytes into the front of the buffer, where they fit, and says how many they are. Else it copies none.
pub fn show(into: &mut [u8], bytes: &[u8]) -> Option<usize>
    ensures fits { IfSome result (λ count. (count ≡ length bytes.now) × (count ≤ length into.old)) }
    ensures long { IfNone result (length into.old < length bytes.now) }
    ensures shown { into.new ≡ shown_in into.old bytes.now }
{
    if into.len() < bytes.len() {
        return None;
    }
    into[..bytes.len()].copy_from_slice(bytes);
    Some(bytes.len())
}
