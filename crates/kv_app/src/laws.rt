//! Laws of op texts, as the contracts of functions that do nothing.
ghost use Rattle.std.specs.Prelude.{◌≡◌, ◌↔◌, ℕ, List, Some};
ghost use Rattle.tx_model.specs.declared.op.Op.{Op as OpValue};
ghost use Rattle.tx_model.specs.Applications.{ops_of, SpellsOps};
ghost use Rattle.kv_app.specs.Places.{IsOpText, IsBadAt, bad_place};

/// Reading the words of a text gives these operations exactly where the text is their spelling.
pub fn op_texts_spell_their_ops()
    ensures { (text : List ℕ) (ops : List OpValue) → (ops_of text ≡ Some ops) ↔ SpellsOps text ops }
{}

/// Where a text is no op text, the place that is found by trying a few endings at each front is the one that is told.
pub fn bad_places_are_found()
    ensures { (text : List ℕ) → ¬ IsOpText text → IsBadAt text (bad_place text) }
{}
