//! Two inserts under one key that no fast quorum chooses.
ghost use Rattle.std.specs.Prelude.{◌≡◌, []};
ghost use Rattle.mdcc_def_examples.specs.Texts.{output};
ghost use Rattle.mdcc_def_examples.specs.Replays.{checked_text, sound};
ghost use Rattle.mdcc_def_examples.specs.Collisions.{first_insert_forced, first_insert_forced_report, second_insert_forced, second_insert_forced_report, range_of_versions, range_of_versions_report};

pub fn a_collision_goes_to_a_leader()
    ensures { checked_text first_insert_forced ≡ sound (output first_insert_forced_report 0 []) }
{}

pub fn other_promises_choose_the_other_insert()
    ensures { checked_text second_insert_forced ≡ sound (output second_insert_forced_report 0 []) }
{}

pub fn a_leader_keeps_its_range_of_versions()
    ensures { checked_text range_of_versions ≡ sound (output range_of_versions_report 0 []) }
{}
