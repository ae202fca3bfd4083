ghost use Rattle.std.specs.Prelude.{◌≡◌, ℕ, Bool, true, List, IfOk, OnOk, OnErr};

use std::alloc::AllocError;

/// What the payloads of a log are applied to, in the log's order. Its kind fixes the next state for each state and
/// payload.
pub trait App {
    ghost State: { Type 0 };

    ghost state: { Self → State };

    ghost next: { State → List ℕ → State };

    /// Which payloads may want memory to be applied.
    ghost wants: { List ℕ → Bool };

    /// What a state is printed as.
    ghost shown: { State → List ℕ };

    /// Goes to the next state, or leaves the state where memory runs out.
    fn apply(&mut self, payload: &[u8]) -> Result<(), AllocError>
        ensures ok { OnOk result (state self.new ≡ next (state self.old) payload.now) }
        ensures err { OnErr result (state self.new ≡ state self.old) }
        ensures memory { OnErr result (wants payload.now ≡ true) };

    /// The state as text.
    fn text(&self) -> Result<Vec<u8>, AllocError>
        ensures { IfOk result (λ text. text.items ≡ shown (state self.now)) };
}
