ghost use Rattle.std.specs.Prelude.{◌≡◌, ◌≤◌, ◌+◌, ◌++◌, ◌∷◌, [], ◌<◌, length, IfOk, OnOk};
ghost use Rattle.net_model.specs.Briefs.{item_of, items_from};
ghost use Rattle.world_law.specs.Steps.{asked};
ghost use Rattle.world_core.specs.Deliveries.{items_outcome};

use net_model::{Envelope, Item, Items, Mail, Outcome, Party, Pool};
use proto_model::ToServer;
use std::alloc::{AllocError, Global};

// Sends an envelope.
fn send(alloc: Global, pool: &mut Pool, envelope: Envelope) -> Result<Item, AllocError>
    requires { length pool.old.sent < 4294967295 }
    ensures pool { OnOk result (pool.new ≡ record pool.old { sent = pool.old.sent ++ envelope ∷ [] }) }
    ensures item { IfOk result (λ item. item ≡ item_of (length pool.old.sent + 1) envelope) }
{
    let from = envelope.from;
    let to = envelope.to;
    let brief = envelope.message.brief(alloc)?;
    let number = pool.add(envelope)?;
    Ok(Item {
        number,
        from,
        to,
        brief,
    })
}

// The outcome of what was sent.
fn outcome_of(items: Vec<Item>) -> Outcome
    ensures { result ≡ items_outcome items.items }
{
    if items.is_empty() {
        return Outcome::Quiet;
    }
    Outcome::Sent(Items::new(items))
}

/// Sends envelopes, and says what came of it.
pub(crate) fn send_all(
    alloc: Global,
    pool: &mut Pool,
    made: Vec<Envelope>,
) -> Result<Outcome, AllocError>
    requires { length pool.old.sent + length made.items ≤ 4294967295 }
    ensures pool { OnOk result (pool.new ≡ record pool.old { sent = pool.old.sent ++ made.items }) }
    ensures outcome { IfOk result (λ outcome. outcome ≡ items_outcome (items_from (length pool.old.sent + 1) made.items)) }
{
    let mut items = Vec::new(alloc);
    for envelope in made {
        let item = send(alloc, pool, envelope)?;
        items.push(item)?;
    }
    Ok(outcome_of(items))
}

/// Sends a client's request to a server, and says what came of it.
pub(crate) fn send_one(
    alloc: Global,
    pool: &mut Pool,
    c: u8,
    v: u8,
    m: ToServer,
) -> Result<Outcome, AllocError>
    requires { length pool.old.sent < 4294967295 }
    ensures pool { OnOk result (pool.new ≡ record pool.old { sent = pool.old.sent ++ asked c v m ∷ [] }) }
    ensures outcome { IfOk result (λ outcome. outcome ≡ items_outcome (items_from (length pool.old.sent + 1) (asked c v m ∷ []))) }
{
    let envelope = Envelope {
        from: Party::Client(c),
        to: Party::Server(v),
        message: Mail::ToServer(m),
    };
    let item = send(alloc, pool, envelope)?;
    let items = vec![in alloc; item]?;
    Ok(Outcome::Sent(Items::new(items)))
}
