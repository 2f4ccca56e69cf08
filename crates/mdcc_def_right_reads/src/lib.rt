//! What a right read is: it shows a version of its key that was committed, with some of the adds that were committed on it. Definitions
//! only.
#![tactic(auto)]
