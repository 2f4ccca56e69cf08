//! The two fits: that of an acceptor at the fast ballot, and that of a leader.
ghost use Rattle.std.specs.Prelude.{◌≡◌, Some};
ghost use Rattle.mdcc_def_protocol.specs.declared.fit.Load.{Load as ALoad};
ghost use Rattle.std.specs.Option.{option_copied};
ghost use Rattle.mdcc_def_protocol.specs.Fit.{capped, exact_fit, fast_fit, fit_in_room, fit_in_share, limit_of};
ghost use Rattle.mdcc_escrow.specs.Sums.{IsBoundedLoad};

use crate::declared::are_declared;
use crate::quantity::{first_past_limit, first_past_room, quantities_of};
use crate::{Fit, Load};
use mdcc_option::{Amounts, Choice, Cluster, Item, Update};

// The fit of an add that passes the room of this quantity, or of none.
fn fit_in_room(broken: Option<u8>) -> Fit
    ensures { result ≡ fit_in_room broken }
{
    match broken {
        Some(number) => Fit::Breaks(number),
        None => Fit::Fits,
    }
}

// The fit of an option that passes the limit of this quantity, or of none.
fn fit_in_share(fit: Fit, limit: Option<u8>) -> Fit
    ensures { result ≡ fit_in_share fit limit }
{
    match (fit, limit) {
        (Fit::Fits, Some(number)) => Fit::Limit(number),
        _ => fit,
    }
}

// How an add to an item fits exactly.
fn add_fit(cluster: &Cluster, base: &Item, load: &Load, amounts: &Amounts) -> Fit
    requires { IsBoundedLoad load.now }
    ensures { result ≡ exact_fit cluster.now (Some base.now) load.now (Update.Add amounts.now) }
{
    if load.writes > 0 {
        return Fit::Conflict;
    }
    let quantities = quantities_of(&cluster.schema, base, load, amounts.as_slice());
    fit_in_room(first_past_room(quantities.as_slice()))
}

// The least quantity of an add to an item that passes an acceptor's share.
fn add_limit(cluster: &Cluster, base: &Item, load: &Load, amounts: &Amounts) -> Option<u8>
    requires { IsBoundedLoad load.now }
    ensures { result ≡ limit_of cluster.now (Some base.now) load.now (Update.Add amounts.now) }
{
    let quantities = quantities_of(&cluster.schema, base, load, amounts.as_slice());
    first_past_limit(cluster.limit, &cluster.quorums, quantities.as_slice())
}

// The least quantity that passes an acceptor's share.
fn limit_of(cluster: &Cluster, base: Option<&Item>, load: &Load, update: &Update) -> Option<u8>
    requires { IsBoundedLoad load.now }
    ensures { result ≡ limit_of cluster.now (option_copied base.entry) load.now update.now }
{
    match (update, base) {
        (Update::Add(amounts), Some(base)) => add_limit(cluster, base, load, amounts),
        _ => None,
    }
}

// How an option fits exactly.
fn fit_exactly(cluster: &Cluster, base: Option<&Item>, load: &Load, update: &Update) -> Fit
    requires { IsBoundedLoad load.now }
    ensures { result ≡ exact_fit cluster.now (option_copied base.entry) load.now update.now }
{
    match (update, base) {
        (Update::Write(_, _), _) => {
            if load.unseen > 0 {
                Fit::Conflict
            } else {
                Fit::Fits
            }
        }
        (Update::Add(_), None) => Fit::Conflict,
        (Update::Add(amounts), Some(base)) => add_fit(cluster, base, load, amounts),
    }
}

/// How an option fits at a leader: it is no write beside what it has not seen, no add beside a
/// write or without an item, and no sum passes its room. It is the same for any load that a store
/// answers this one for.
#[tactic(auto, using(crate::proofs::Capped::capped_fits))]
pub fn exact_fit(cluster: &Cluster, base: Option<&Item>, load: &Load, choice: &Choice) -> Fit
    requires { IsBoundedLoad load.now }
    ensures value { result ≡ exact_fit cluster.now (option_copied base.entry) load.now choice.now.update }
    ensures whole { (whole : ALoad) → load.now ≡ capped whole → result ≡ exact_fit cluster.now (option_copied base.entry) whole choice.now.update }
{
    are_declared(cluster, base);
    fit_exactly(cluster, base, load, &choice.update)
}

/// How an option fits at an acceptor at the fast ballot: what fits exactly may still be past the
/// acceptor's share of the room. It is the same for any load that a store answers this one for.
#[tactic(auto, using(crate::proofs::Capped::capped_fits))]
pub fn fast_fit(cluster: &Cluster, base: Option<&Item>, load: &Load, choice: &Choice) -> Fit
    requires { IsBoundedLoad load.now }
    ensures value { result ≡ fast_fit cluster.now (option_copied base.entry) load.now choice.now.update }
    ensures whole { (whole : ALoad) → load.now ≡ capped whole → result ≡ fast_fit cluster.now (option_copied base.entry) whole choice.now.update }
{
    are_declared(cluster, base);
    let fit = fit_exactly(cluster, base, load, &choice.update);
    fit_in_share(fit, limit_of(cluster, base, load, &choice.update))
}
