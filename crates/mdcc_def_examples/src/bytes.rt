//! Bytes of messages, of facts and of a log.
ghost use Rattle.std.specs.Prelude.{◌≡◌, ◌∷◌, ◌++◌, [], IsTrue, map, take, set, Ok, Err};
ghost use Rattle.std.specs.List.{list_all};
ghost use Rattle.mdcc_def_messages.specs.declared.facts.Fact.TheVariants.{Booted};
ghost use Rattle.mdcc_def_messages.specs.declared.wire.WireFault.TheVariants.{Truncated, Trailing, Kind, Range, NotCanonical};
ghost use Rattle.mdcc_log_file.specs.Log.{log_bytes};
ghost use Rattle.mdcc_def_messages.specs.Spelling.{message_bytes, fact_bytes};
ghost use Rattle.mdcc_def_messages.specs.Lengths.{message_length, log_length, cells_needed};
ghost use Rattle.mdcc_def_messages.specs.WellFormed.{is_well_formed_envelope, is_well_formed_fact};
ghost use Rattle.mdcc_def_messages.specs.Reading.{view_of, fact_of};
ghost use Rattle.mdcc_def_examples.specs.ByteValues.{proposal, proposal_spelled, question, question_rest, question_spelled, first_boot, first_log};
ghost use Rattle.mdcc_def_examples.specs.EachKind.{all_envelopes, all_facts};

/// A proposal has 46 bytes, and is read again.
pub fn proposal_is_spelled()
    ensures bytes { message_bytes proposal ≡ proposal_spelled }
    ensures length { message_length proposal ≡ 46 }
    ensures well_formed { IsTrue (is_well_formed_envelope proposal) }
    ensures read { view_of proposal_spelled ≡ Ok proposal }
{}

/// A question has 23 bytes, and is read again.
pub fn question_is_spelled()
    ensures bytes { message_bytes question ≡ question_spelled }
    ensures length { message_length question ≡ 23 }
    ensures well_formed { IsTrue (is_well_formed_envelope question) }
    ensures read { view_of question_spelled ≡ Ok question }
{}

/// A question is refused where a byte is missing, where one follows, and where its kind is 16.
pub fn question_is_refused()
    ensures truncated { view_of (take 22 question_spelled) ≡ Err (Truncated 22) }
    ensures trailing { view_of (question_spelled ++ 0 ∷ []) ≡ Err (Trailing 23) }
    ensures kind { view_of (1 ∷ 16 ∷ question_rest) ≡ Err Kind }
{}

/// After its first boot a log has 19 bytes, and the fact takes one cell.
pub fn log_is_spelled()
    ensures bytes { log_bytes (map fact_bytes first_boot) ≡ first_log }
    ensures length { log_length first_boot ≡ 19 }
    ensures cells { cells_needed (Booted 1) ≡ 1 }
    ensures read { fact_of (1 ∷ 1 ∷ 0 ∷ 0 ∷ 0 ∷ []) ≡ Ok (Booted 1) }
{}

/// A message of each kind is well-formed, and read as it was spelled.
pub fn each_kind_is_read()
    ensures messages { map (λ envelope. view_of (message_bytes envelope)) all_envelopes ≡ map Ok all_envelopes }
    ensures well_formed { IsTrue (list_all is_well_formed_envelope all_envelopes) }
    ensures facts { map (λ fact. fact_of (fact_bytes fact)) all_facts ≡ map Ok all_facts }
    ensures facts_well_formed { IsTrue (list_all is_well_formed_fact all_facts) }
{}

/// A number outside its range is refused at the part in which it stands.
pub fn ranges_are_refused()
    ensures sender { view_of (set question_spelled 2 0) ≡ Err (Range 2) }
    ensures addressee { view_of (set question_spelled 3 10) ≡ Err (Range 3) }
    ensures centre { view_of (set question_spelled 4 0) ≡ Err (Range 4) }
    ensures epoch { view_of (set question_spelled 5 0) ≡ Err (Range 4) }
    ensures seq { view_of (set question_spelled 9 0) ≡ Err (Range 4) }
    ensures key_length { view_of (set question_spelled 13 33) ≡ Err (Range 13) }
    ensures key_byte { view_of (take 15 (set question_spelled 14 64)) ≡ Err (Range 13) }
    ensures update { view_of (set proposal_spelled 23 3) ≡ Err (Range 23) }
    ensures values { view_of (set proposal_spelled 25 0) ≡ Err (Range 24) }
    ensures seen { view_of (set proposal_spelled 34 65) ≡ Err (Range 34) }
    ensures write_set { view_of (set proposal_spelled 35 0) ≡ Err (Range 35) }
{}

/// A write set without the choice's own key or version is refused.
pub fn orders_are_refused()
    ensures key { view_of (set proposal_spelled 37 98) ≡ Err (NotCanonical 35) }
    ensures version { view_of (set proposal_spelled 38 1) ≡ Err (NotCanonical 35) }
{}
