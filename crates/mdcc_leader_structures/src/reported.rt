//! The claims from which the first structure of a ballot is made.
ghost use Rattle.std.specs.Prelude.{◌≡◌, ◌∷◌, IfOk, OnOk, [], fold};
ghost use Rattle.mdcc_def_protocol.specs.Structures.{all_claims, claims_reported, with_choice};
ghost use Rattle.mdcc_leader_structures.specs.Marked.{claims_of};

use crate::Claims;
use mdcc_base::{Memory, TxId};
use mdcc_option::Mark;
use mdcc_struct::Report;
use std::alloc::Global;

/// The pending claims and the reported choices, ascending by transaction.
pub(crate) fn all_claims(
    alloc: Global,
    pending: &Claims,
    reports: &[Report],
) -> Result<Claims, Memory>
    ensures { IfOk result (λ claims. claims ≡ all_claims pending.now reports.now) }
{
    let _pending = pending.len();
    let mut claims = pending.copy(alloc)?;
    for report in reports {
        add_reported(&mut claims, report)?;
    }
    Ok(claims)
}

// Adds the accepted choices of one report.
fn add_reported(claims: &mut Claims, report: &Report) -> Result<(), Memory>
    ensures { OnOk result (claims.new ≡ fold with_choice claims.old (claims_reported report.now)) }
{
    for place in 0..report.votes.len() {
        let (tx, mark) = report.votes.at(place);
        add_mark(claims, tx, mark)?;
    }
    Ok(())
}

// Adds the choice of one mark, where it accepts one.
fn add_mark(claims: &mut Claims, tx: TxId, mark: &Mark) -> Result<(), Memory>
    ensures { OnOk result (claims.new ≡ fold with_choice claims.old (claims_of ((tx, mark.now) ∷ []))) }
{
    match mark {
        Mark::Accept(choice) => claims.add(tx, Some(choice)),
        Mark::Reject => Ok(()),
    }
}
