//! The ledger of a whole cluster, which no node keeps: what is chosen and committed by it, which
//! facts a centre may add, and which ledgers are allowed. Definitions only.
#![tactic(auto)]
