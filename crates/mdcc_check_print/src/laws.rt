//! What is written is read.
ghost use Rattle.mdcc_check_print.specs.Printable.{PrintedHistoryIsRead, PrintedIsRead};

/// A line of a history that is written is read back as what was written.
pub fn printed_is_read()
    ensures { PrintedIsRead }
{}

/// A history that is written, its header and its lines, is read back as what was written.
pub fn printed_history_is_read()
    ensures { PrintedHistoryIsRead }
{}
