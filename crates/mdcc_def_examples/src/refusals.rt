//! Inputs that are refused, and quorums that are not.
ghost use Rattle.std.specs.Prelude.{◌≡◌, [], codes};
ghost use Rattle.mdcc_def_examples.specs.Texts.{output, replay_output};
ghost use Rattle.mdcc_def_examples.specs.Replays.{checked_text, sound};
ghost use Rattle.mdcc_def_examples.specs.Refusals.{nine_inserts, header_report, repeated_key, value_past_bound, unsent_message, missing_line_end, restart_of_an_up_centre, quorums_alone, quorums_report};

pub fn nine_updates_are_refused()
    ensures { checked_text nine_inserts ≡ sound (output header_report 4 (codes "mdcc: line 6: Begin TooMany\n")) }
{}

pub fn a_repeated_key_is_refused()
    ensures { checked_text repeated_key ≡ sound (output header_report 4 (codes "mdcc: line 6: Begin RepeatedKey\n")) }
{}

pub fn a_value_past_its_bound_is_refused()
    ensures { checked_text value_past_bound ≡ sound (output header_report 4 (codes "mdcc: line 6: Begin OutOfBounds\n")) }
{}

pub fn a_message_that_was_not_sent_is_refused()
    ensures { checked_text unsent_message ≡ sound (output header_report 4 (codes "mdcc: line 6: NoMessage 99\n")) }
{}

pub fn a_line_without_its_end_is_refused()
    ensures { checked_text missing_line_end ≡ sound (output header_report 4 (codes "mdcc: line 6 column 18: Word\n")) }
{}

pub fn an_empty_input_is_refused()
    ensures { replay_output [] ≡ output [] 3 (codes "mdcc: header line 1: Order\n") }
{}

pub fn a_restart_of_a_centre_that_is_up_is_refused()
    ensures { checked_text restart_of_an_up_centre ≡ sound (output header_report 4 (codes "mdcc: line 6: Up 1\n")) }
{}

pub fn one_centre_alone_is_accepted()
    ensures { checked_text (quorums_alone (codes "quorums 1 1 1\n")) ≡ sound (output (quorums_report (codes "quorums 1 1 1\n")) 0 []) }
{}

pub fn three_centres_are_accepted()
    ensures { checked_text (quorums_alone (codes "quorums 3 2 3\n")) ≡ sound (output (quorums_report (codes "quorums 3 2 3\n")) 0 []) }
{}

pub fn four_centres_are_accepted()
    ensures { checked_text (quorums_alone (codes "quorums 4 3 3\n")) ≡ sound (output (quorums_report (codes "quorums 4 3 3\n")) 0 []) }
{}

pub fn ten_centres_are_refused()
    ensures { replay_output (quorums_alone (codes "quorums 10 6 8\n")) ≡ output [] 3 (codes "mdcc: header line 2: Centres\n") }
{}

pub fn a_classic_quorum_of_none_is_refused()
    ensures { replay_output (quorums_alone (codes "quorums 5 0 4\n")) ≡ output [] 3 (codes "mdcc: header line 2: ClassicRange\n") }
{}

pub fn a_fast_quorum_of_too_many_is_refused()
    ensures { replay_output (quorums_alone (codes "quorums 5 3 6\n")) ≡ output [] 3 (codes "mdcc: header line 2: FastRange\n") }
{}

pub fn classic_quorums_that_do_not_meet_are_refused()
    ensures { replay_output (quorums_alone (codes "quorums 5 2 5\n")) ≡ output [] 3 (codes "mdcc: header line 2: ClassicMeet\n") }
{}

pub fn fast_quorums_that_do_not_meet_are_refused()
    ensures { replay_output (quorums_alone (codes "quorums 5 3 3\n")) ≡ output [] 3 (codes "mdcc: header line 2: FastMeet\n") }
{}
