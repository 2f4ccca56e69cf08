//! The wider fast limit, and a leader that waits for more promises.
ghost use Rattle.std.specs.Prelude.{◌≡◌, [], Some, codes, false, true};
ghost use Rattle.mdcc_def_examples.specs.Texts.{output};
ghost use Rattle.mdcc_def_examples.specs.Replays.{checked_text, sound};
ghost use Rattle.mdcc_def_examples.specs.FastLimits.{early, forced_past_the_room, forced_past_the_room_report, passed_version, replay_decision, three_promises};

pub fn a_leader_waits_where_forced_marks_do_not_fit_together()
    ensures { checked_text forced_past_the_room ≡ sound (output forced_past_the_room_report 0 []) }
{}

pub fn a_leader_that_does_not_wait_is_refused()
    ensures { early three_promises ≡ Some (record { ledger_allowed = true; promises = 3; accepted = 3; under_paper = false; under_safe = true }) }
{}

pub fn a_passed_version_is_decided_under_the_safe_limit()
    ensures { replay_decision (passed_version (codes "limit safe\n") []) ≡ Some (record { all_taken = true; promises = 4; is_decided = true }) }
{}

pub fn a_passed_version_waits_for_all_centres_under_the_wider_limit()
    ensures { replay_decision (passed_version (codes "limit paper\n") []) ≡ Some (record { all_taken = true; promises = 4; is_decided = false }) }
{}

pub fn it_is_decided_once_all_centres_promise()
    ensures { replay_decision (passed_version (codes "limit paper\n") (codes "restart 4\nsettle\ntick 5\nsettle\ntick 5\nsettle\n")) ≡ Some (record { all_taken = true; promises = 5; is_decided = true }) }
{}
