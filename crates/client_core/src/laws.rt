//! Laws of building and of applying, each the contract of a function that does nothing.
ghost use Rattle.std.specs.Prelude.{◌≡◌, ◌↔◌, ℕ, List, length, Some, None};
ghost use Rattle.tx_model.specs.Records.{IsLog};
ghost use Rattle.tx_model.specs.Applications.{serial};
ghost use Rattle.proto_model.specs.declared.refusal.BuildFault.{BuildFault as Fault};
ghost use Rattle.client_core.specs.Clients.{ClientState};
ghost use Rattle.client_core.specs.Applied.{Does, new_client, after_calls, applied_by};
ghost use Rattle.client_core.specs.Building.{Draft, IsBuildable, IsRefusal, build_refusal};

/// A draft is refused for a reason exactly where the tests before are passed and this one is not, and is built where
/// all are passed.
pub fn refusals_are_in_order()
    ensures refused { (cl : ClientState) (d : Draft) (fault : Fault) → cl.request ≡ d.request →
        (build_refusal cl d.writes d.reads d.ops ≡ Some fault) ↔ IsRefusal d fault }
    ensures built { (cl : ClientState) (d : Draft) → cl.request ≡ d.request →
        (build_refusal cl d.writes d.reads d.ops ≡ None) ↔ IsBuildable d }
{}

/// Whatever answers a client takes, of any servers and in any order, and whatever it builds between them: the records
/// that it has applied have the ids 1, 2, 3 and so on, its mark is their number, and its application is what their
/// payloads make in this order.
pub fn applications_are_serial()
    ensures mark { (request : ℕ) (calls : List Does) →
        (after_calls (new_client request) calls).mark
        ≡ length (applied_by (new_client request) calls) }
    ensures ids { (request : ℕ) (calls : List Does) →
        IsLog (applied_by (new_client request) calls) }
    ensures application { (request : ℕ) (calls : List Does) →
        (after_calls (new_client request) calls).app
        ≡ serial (applied_by (new_client request) calls)
        (after_calls (new_client request) calls).mark }
{}
