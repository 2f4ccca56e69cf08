//! What a store of facts says of floors.
ghost use Rattle.std.specs.Prelude.{◌≡◌, List};
ghost use Rattle.mdcc_def_messages.specs.declared.facts.Fact.{Fact as AFact};
ghost use Rattle.mdcc_def_protocol.specs.Facts.{floor_of, heard_through_of};

use mdcc_base::Centre;

/// A store of the facts of one centre that says through which numbers of an epoch transactions were
/// heard.
pub trait FloorStore {
    /// The lists of facts, the newest first, for which it stands.
    ghost stands: { Self → List AFact → Type 0 };

    /// The number through which all centres have heard the transactions that a centre began in an
    /// epoch, as far as this one knows; 0 where it knows of none.
    fn floor(&self, centre: Centre, epoch: u32) -> u32
        ensures { (facts : List AFact) → stands self.now facts → result ≡ floor_of facts centre epoch };

    /// The number through which each of them was heard here, or by all.
    fn heard_through(&self, centre: Centre, epoch: u32) -> u32
        ensures { (facts : List AFact) → stands self.now facts → result ≡ heard_through_of facts centre epoch };
}
