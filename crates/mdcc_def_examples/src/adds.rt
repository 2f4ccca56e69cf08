//! Adds, and the bounds that they keep.
ghost use Rattle.std.specs.Prelude.{◌≡◌, []};
ghost use Rattle.mdcc_def_examples.specs.Texts.{output};
ghost use Rattle.mdcc_def_examples.specs.Replays.{checked_text, sound};
ghost use Rattle.mdcc_def_examples.specs.Adds.{three_decreases, three_decreases_report, joint_decreases, joint_decreases_report, increase_to_bound, increase_to_bound_report, increase_then_decrease, increase_then_decrease_report, decrease_past_bound, decrease_past_bound_report};

pub fn adds_at_the_limit_go_to_a_leader()
    ensures { checked_text three_decreases ≡ sound (output three_decreases_report 0 []) }
{}

pub fn joint_decreases_that_fit_are_all_chosen()
    ensures { checked_text joint_decreases ≡ sound (output joint_decreases_report 0 []) }
{}

pub fn an_increase_up_to_its_bound_is_chosen()
    ensures { checked_text increase_to_bound ≡ sound (output increase_to_bound_report 0 []) }
{}

pub fn increases_make_room_only_in_the_next_version()
    ensures { checked_text increase_then_decrease ≡ sound (output increase_then_decrease_report 0 []) }
{}

pub fn a_decrease_past_its_bound_is_rejected()
    ensures { checked_text decrease_past_bound ≡ sound (output decrease_past_bound_report 0 []) }
{}
