//! A cluster that a schedule runs: its nodes, the messages between them, what each event does, and
//! what a replay prints. Definitions only.
#![tactic(auto)]
