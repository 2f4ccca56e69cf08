//! How long logs are.
ghost use Rattle.std.specs.Prelude.{◌≡◌, List, length};
ghost use Rattle.mdcc_log_file.specs.Log.{log_bytes};
ghost use Rattle.mdcc_def_messages.specs.Lengths.{log_length};
ghost use Rattle.mdcc_def_messages.specs.declared.facts.Fact.{Fact};
ghost use Rattle.mdcc_def_messages.specs.Spelling.{encodings_of};

/// A log of facts has as many bytes as the limit of a log counts for them.
pub fn logs_are_as_long_as_counted()
    ensures { (facts : List Fact) → length (log_bytes (encodings_of facts)) ≡ log_length facts }
{}
