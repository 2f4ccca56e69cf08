//! Writes that name the version that was read.
ghost use Rattle.std.specs.Prelude.{◌≡◌, []};
ghost use Rattle.mdcc_def_examples.specs.Texts.{output};
ghost use Rattle.mdcc_def_examples.specs.Replays.{checked_text, sound};
ghost use Rattle.mdcc_def_examples.specs.Versions.{old_version, old_version_report, refused_begins, refused_begins_report, centre_behind, centre_behind_report};

pub fn a_write_on_an_old_version_aborts()
    ensures { checked_text old_version ≡ sound (output old_version_report 0 []) }
{}

pub fn stale_and_missing_items_refuse_a_begin()
    ensures { checked_text refused_begins ≡ sound (output refused_begins_report 0 []) }
{}

pub fn a_centre_behind_catches_up_and_votes()
    ensures { checked_text centre_behind ≡ sound (output centre_behind_report 0 []) }
{}
