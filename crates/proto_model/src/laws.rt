ghost use Rattle.std.specs.Prelude.{◌≡◌, ℕ, None};
ghost use Rattle.tx_model.specs.Contents.{entries_in};
ghost use Rattle.proto_model.specs.Damages.{IsDamaged};
ghost use Rattle.proto_model.specs.Held.{Contents, EachNamed, held_in};
ghost use Rattle.proto_model.specs.Sanity.{EveryStepIsSane, RepliesAreValid, MessagesAreValid, EveryReceiveIsSane};

/// A node's reply is to the session that asked. No promise falls, what is adopted is at most the promise, and only an
/// adoption and an append change the log.
pub fn every_step_is_sane()
    ensures { EveryStepIsSane }
{}

/// A node whose state is in the ranges of the formats answers a message in the ranges by a reply in the ranges.
pub fn replies_are_valid()
    ensures { RepliesAreValid }
{}

/// A server whose state is in the ranges of the formats sends messages in the ranges.
pub fn messages_are_valid()
    ensures { MessagesAreValid }
{}

/// A node's reply leaves a server's session, and its commit mark never falls, also where the reply closes the server.
pub fn every_receive_is_sane()
    ensures { EveryReceiveIsSane }
{}

/// Files of which a place is damaged stand for nothing, and where files stand for nothing, a place is damaged.
pub fn damaged_files_stand_for_nothing()
    ensures nothing { (c : Contents) (file at : ℕ) → IsDamaged c file at → held_in c ≡ None }
    ensures place { (c : Contents) → held_in c ≡ None →
        (file : ℕ) × ((at : ℕ) × IsDamaged c file at) }
{}

/// Loading answers one place: no other one is damaged.
pub fn one_place_is_damaged()
    ensures { (c : Contents) (file at other place : ℕ) →
        IsDamaged c file at → IsDamaged c other place → (file ≡ other) × (at ≡ place) }
{}

/// What files stand for rests on the journal and the files that its entries name.
pub fn files_stand_by_what_is_named()
    ensures { (c d : Contents) → c 0 ≡ d 0 →
        EachNamed (λ file. c file ≡ d file) (entries_in (c 0)) → held_in c ≡ held_in d }
{}
