//! Transactions whose centre crashes before they end.
ghost use Rattle.std.specs.Prelude.{◌≡◌, []};
ghost use Rattle.mdcc_def_examples.specs.Texts.{output};
ghost use Rattle.mdcc_def_examples.specs.Replays.{checked_text, sound};
ghost use Rattle.mdcc_def_examples.specs.Dangling.{dangling_commit, dangling_commit_report, dangling_abort, dangling_abort_report};

pub fn a_dangling_transaction_is_committed_by_others()
    ensures { checked_text dangling_commit ≡ sound (output dangling_commit_report 0 []) }
{}

pub fn a_dangling_transaction_is_aborted_by_others()
    ensures { checked_text dangling_abort ≡ sound (output dangling_abort_report 0 []) }
{}
