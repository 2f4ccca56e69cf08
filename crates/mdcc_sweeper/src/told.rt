//! What one centre told of one epoch.
ghost use Rattle.std.specs.Prelude.{◌≡◌, max};
ghost use Rattle.mdcc_def_protocol.specs.Floors.{is_of};

use mdcc_base::Centre;
use std::marker::Model;

/// The greatest number through which a centre has heard all transactions that a centre began in an
/// epoch, as it told.
#[derive(Drop)]
pub(crate) struct Told {
    from: Centre,
    centre: Centre,
    epoch: u32,
    seq: u32,
}

impl Model for Told {
    ghost use Rattle.mdcc_def_protocol.specs.Volatile.{Marked};

    ghost Value = { Marked };

    ghost view = { λ t. record { from = t.from; centre = t.centre; epoch = t.epoch; seq = t.seq } };
}

impl Told {
    /// A centre told this.
    pub(crate) fn new(from: Centre, centre: Centre, epoch: u32, seq: u32) -> Told
        ensures { result ≡ record { from = from; centre = centre; epoch = epoch; seq = seq } }
    {
        Told {
            from,
            centre,
            epoch,
            seq,
        }
    }

    /// Whether this centre told it of that epoch.
    pub(crate) fn is_of(&self, from: u8, centre: Centre, epoch: u32) -> bool
        ensures { result ≡ is_of from centre epoch self.now }
    {
        self.from.number() == from && self.centre == centre && self.epoch == epoch
    }

    /// The number.
    pub(crate) fn seq(&self) -> u32
        ensures { result ≡ self.now.seq }
    {
        self.seq
    }

    /// Raises the number, where the other is greater.
    pub(crate) fn raise(&mut self, seq: u32)
        ensures { self.new ≡ record self.old { seq = max self.old.seq seq } }
    {
        self.seq = self.seq.max(seq);
    }
}
