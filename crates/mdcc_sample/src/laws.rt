//! What every sample is.
ghost use Rattle.mdcc_sample.specs.Orders.{EveryOrderIs};

/// Each order takes three different items of the shop, one to three pieces of each, at one of five centres that is up.
pub fn every_order_is()
    ensures { EveryOrderIs }
{}
