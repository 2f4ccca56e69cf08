//! Crashes, and stops within the append of a vote.
ghost use Rattle.std.specs.Prelude.{◌≡◌, [], codes};
ghost use Rattle.mdcc_def_examples.specs.Texts.{output};
ghost use Rattle.mdcc_def_examples.specs.Replays.{checked_text, sound};
ghost use Rattle.mdcc_def_examples.specs.Crashes.{restarted_leader, restarted_leader_report, insert_with_stop, vote_lost_report, vote_kept_report};

pub fn a_restarted_leader_takes_a_higher_ballot()
    ensures { checked_text restarted_leader ≡ sound (output restarted_leader_report 0 []) }
{}

pub fn a_lost_frame_write_loses_the_vote()
    ensures { checked_text (insert_with_stop (codes "stop 2 1 lost\n")) ≡ sound (output (vote_lost_report (codes "stop 2 1 lost\n")) 0 []) }
{}

pub fn a_kept_frame_write_loses_the_vote()
    ensures { checked_text (insert_with_stop (codes "stop 2 1 kept\n")) ≡ sound (output (vote_lost_report (codes "stop 2 1 kept\n")) 0 []) }
{}

pub fn a_torn_frame_write_loses_the_vote()
    ensures { checked_text (insert_with_stop (codes "stop 2 1 torn\n")) ≡ sound (output (vote_lost_report (codes "stop 2 1 torn\n")) 0 []) }
{}

pub fn a_lost_frame_sync_loses_the_vote()
    ensures { checked_text (insert_with_stop (codes "stop 2 2 lost\n")) ≡ sound (output (vote_lost_report (codes "stop 2 2 lost\n")) 0 []) }
{}

pub fn a_kept_frame_sync_loses_the_vote()
    ensures { checked_text (insert_with_stop (codes "stop 2 2 kept\n")) ≡ sound (output (vote_lost_report (codes "stop 2 2 kept\n")) 0 []) }
{}

pub fn a_torn_frame_sync_loses_the_vote()
    ensures { checked_text (insert_with_stop (codes "stop 2 2 torn\n")) ≡ sound (output (vote_lost_report (codes "stop 2 2 torn\n")) 0 []) }
{}

pub fn a_lost_gate_write_loses_the_vote()
    ensures { checked_text (insert_with_stop (codes "stop 2 3 lost\n")) ≡ sound (output (vote_lost_report (codes "stop 2 3 lost\n")) 0 []) }
{}

pub fn a_kept_gate_write_holds_the_vote()
    ensures { checked_text (insert_with_stop (codes "stop 2 3 kept\n")) ≡ sound (output (vote_kept_report (codes "stop 2 3 kept\n")) 0 []) }
{}

pub fn a_torn_gate_write_loses_the_vote()
    ensures { checked_text (insert_with_stop (codes "stop 2 3 torn\n")) ≡ sound (output (vote_lost_report (codes "stop 2 3 torn\n")) 0 []) }
{}

pub fn a_lost_gate_sync_loses_the_vote()
    ensures { checked_text (insert_with_stop (codes "stop 2 4 lost\n")) ≡ sound (output (vote_lost_report (codes "stop 2 4 lost\n")) 0 []) }
{}

pub fn a_kept_gate_sync_holds_the_vote()
    ensures { checked_text (insert_with_stop (codes "stop 2 4 kept\n")) ≡ sound (output (vote_kept_report (codes "stop 2 4 kept\n")) 0 []) }
{}

pub fn a_torn_gate_sync_loses_the_vote()
    ensures { checked_text (insert_with_stop (codes "stop 2 4 torn\n")) ≡ sound (output (vote_lost_report (codes "stop 2 4 torn\n")) 0 []) }
{}
