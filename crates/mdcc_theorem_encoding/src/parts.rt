//! Laws of the bytes of parts.
ghost use Rattle.std.specs.Prelude.{ℕ, List};
ghost use Rattle.mdcc_base.specs.Key.{IsKey};
ghost use Rattle.mdcc_def_messages.specs.SpelledParts.{key_bytes, tx_bytes, ballot_bytes, item_bytes, seen_bytes, amounts_bytes, update_bytes, write_set_bytes, choice_bytes, delta_bytes, options_bytes};
ghost use Rattle.mdcc_def_messages.specs.ReadingParts.{key_at, tx_at, ballot_at, item_at, seen_at, amounts_at, update_at, write_set_at, choice_at, delta_at, options_at};
ghost use Rattle.mdcc_def_messages.specs.WellFormedParts.{IsWellFormedTx, IsWellFormedBallot, IsWellFormedItem, IsWellFormedSeen, IsWellFormedAmounts, IsWellFormedUpdate, IsWellFormedWriteSet, IsWellFormedChoice, IsWellFormedDelta, IsWellFormedOptions};
ghost use Rattle.mdcc_theorem_encoding.specs.PartLaws.{AreReadBack, HaveOneSpelling};

/// What is written of a part is read back, whatever stands before and behind it.
pub fn parts_are_read_back()
    ensures keys { AreReadBack IsKey key_bytes key_at }
    ensures identifiers { AreReadBack IsWellFormedTx tx_bytes tx_at }
    ensures ballots { AreReadBack IsWellFormedBallot ballot_bytes ballot_at }
    ensures items { AreReadBack IsWellFormedItem item_bytes item_at }
    ensures seen { AreReadBack IsWellFormedSeen seen_bytes seen_at }
    ensures amounts { AreReadBack IsWellFormedAmounts amounts_bytes amounts_at }
    ensures updates { AreReadBack IsWellFormedUpdate update_bytes update_at }
    ensures write_sets { AreReadBack IsWellFormedWriteSet write_set_bytes write_set_at }
    ensures choices { AreReadBack IsWellFormedChoice choice_bytes choice_at }
    ensures deltas { AreReadBack IsWellFormedDelta delta_bytes delta_at }
    ensures structures { (key : List ℕ) (version : ℕ) → AreReadBack (IsWellFormedOptions key version) options_bytes (λ bytes at. options_at bytes at key version) }
{}

/// Only parts that meet their ranges and orders are read, and only from their one spelling.
pub fn parts_have_one_spelling()
    ensures keys { HaveOneSpelling IsKey key_bytes key_at }
    ensures identifiers { HaveOneSpelling IsWellFormedTx tx_bytes tx_at }
    ensures ballots { HaveOneSpelling IsWellFormedBallot ballot_bytes ballot_at }
    ensures items { HaveOneSpelling IsWellFormedItem item_bytes item_at }
    ensures seen { HaveOneSpelling IsWellFormedSeen seen_bytes seen_at }
    ensures amounts { HaveOneSpelling IsWellFormedAmounts amounts_bytes amounts_at }
    ensures updates { HaveOneSpelling IsWellFormedUpdate update_bytes update_at }
    ensures write_sets { HaveOneSpelling IsWellFormedWriteSet write_set_bytes write_set_at }
    ensures choices { HaveOneSpelling IsWellFormedChoice choice_bytes choice_at }
    ensures deltas { HaveOneSpelling IsWellFormedDelta delta_bytes delta_at }
    ensures structures { (key : List ℕ) (version : ℕ) → HaveOneSpelling (IsWellFormedOptions key version) options_bytes (λ bytes at. options_at bytes at key version) }
{}
