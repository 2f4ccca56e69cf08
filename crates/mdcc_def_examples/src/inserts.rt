//! Inserts, from the schedule to the report.
ghost use Rattle.std.specs.Prelude.{◌≡◌, []};
ghost use Rattle.mdcc_def_examples.specs.Texts.{output};
ghost use Rattle.mdcc_def_examples.specs.Replays.{checked_text, sound};
ghost use Rattle.mdcc_def_examples.specs.Inserts.{no_events, no_events_report, one_insert, one_insert_report, settled_insert, settled_insert_report, repeated_deliveries, repeated_deliveries_report, second_insert, second_insert_report, eight_inserts, eight_inserts_report};

pub fn no_event_is_no_message()
    ensures { checked_text no_events ≡ sound (output no_events_report 0 []) }
{}

pub fn four_votes_choose_an_insert()
    ensures { checked_text one_insert ≡ sound (output one_insert_report 0 []) }
{}

pub fn an_insert_is_heard_everywhere()
    ensures { checked_text settled_insert ≡ sound (output settled_insert_report 0 []) }
{}

pub fn repeated_and_reversed_votes_choose_once()
    ensures { checked_text repeated_deliveries ≡ sound (output repeated_deliveries_report 0 []) }
{}

pub fn a_second_insert_is_rejected_and_stays_known()
    ensures { checked_text second_insert ≡ sound (output second_insert_report 0 []) }
{}

pub fn eight_inserts_begin_as_one()
    ensures { checked_text eight_inserts ≡ sound (output eight_inserts_report 0 []) }
{}
