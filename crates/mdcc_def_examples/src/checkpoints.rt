//! The frames of the tail of a log, and which appends an armed stop strikes.
ghost use Rattle.std.specs.Prelude.{◌≡◌, None, Some};
ghost use Rattle.mdcc_base.specs.declared.outside.Image.TheVariants.{Lost, Kept, Torn};
ghost use Rattle.mdcc_def_simulation.specs.Checkpoints.{striking, tail_after_append, tail_stopped};

pub fn a_frame_more()
    ensures { tail_after_append 1022 ≡ 1023 }
{}

pub fn a_checkpoint_empties_the_tail()
    ensures { tail_after_append 1023 ≡ 0 }
{}

pub fn no_stop_is_armed()
    ensures { striking 1023 None ≡ None }
{}

pub fn a_stop_in_an_append_strikes()
    ensures { striking 1 (Some (4, Lost)) ≡ Some (4, Lost) }
{}

pub fn a_stop_in_a_checkpoint_waits()
    ensures { striking 1022 (Some (7, Kept)) ≡ None }
{}

pub fn a_stop_in_a_checkpoint_strikes()
    ensures { striking 1023 (Some (7, Kept)) ≡ Some (7, Kept) }
{}

pub fn a_frame_lost()
    ensures { tail_stopped 1022 4 Lost ≡ 1022 }
{}

pub fn a_frame_kept()
    ensures { tail_stopped 1022 3 Kept ≡ 1023 }
{}

pub fn a_frame_before_a_lost_checkpoint()
    ensures { tail_stopped 1023 5 Lost ≡ 1024 }
{}

pub fn a_gate_of_a_checkpoint_torn()
    ensures { tail_stopped 1023 10 Torn ≡ 1024 }
{}

pub fn a_gate_of_a_checkpoint_lost()
    ensures { tail_stopped 1023 11 Lost ≡ 1024 }
{}

pub fn a_body_of_a_checkpoint_kept()
    ensures { tail_stopped 1023 9 Kept ≡ 1024 }
{}

pub fn a_gate_of_a_checkpoint_kept()
    ensures { tail_stopped 1023 10 Kept ≡ 0 }
{}
