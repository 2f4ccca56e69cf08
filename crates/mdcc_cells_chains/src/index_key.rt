//! What an index finds things by: transactions, keys, and versions of a key.
ghost use Rattle.std.specs.Prelude.{◌≡◌, Bool, true, ℕ};
ghost use Rattle.mdcc_base.specs.Key.{key_eq};
ghost use Rattle.mdcc_base.specs.TxId.{tx_eq};
ghost use Rattle.mdcc_cells_chains.specs.Hashes.{tx_hash, bytes_hash, instance_hash, mixed};
ghost use Rattle.mdcc_cells_chains.specs.Keys.{instance_eq, tx_eq-one, key_eq-one, instance_eq-one};

use mdcc_base::{Key, TxId};

/// A value by which an index finds things.
pub trait IndexKey: Drop {
    ghost same: { Self → Self → Bool };

    ghost hash_code: { Self → ℕ };

    /// Whether they are one key.
    fn is_same(&self, other: &Self) -> bool
        ensures { result ≡ same self.now other.now };

    /// A number that should differ between keys. Where it does not, an index is slower, but right.
    fn hash_code(&self) -> u64
        ensures { result ≡ hash_code self.now };

    ghost one: { (a b : Self) → same a b ≡ true → a ≡ b };
}

// One number of a transaction's three.
fn tx_hash(centre: u8, epoch: u32, seq: u32) -> u64
    ensures { result ≡ tx_hash centre epoch seq }
{
    u64::from(seq) + u64::from(epoch) * 1_000_003 + u64::from(centre) * 15_485_863
}

// One number of some bytes.
fn bytes_hash(bytes: &[u8]) -> u64
    ensures { result ≡ bytes_hash bytes.now }
{
    let mut hash: u64 = 14_695_981_039_346_656_037;
    for byte in bytes {
        hash = hash
            .wrapping_add(u64::from(*byte))
            .wrapping_mul(11_400_714_819_323_198_485);
    }
    hash / 4_294_967_296
}

impl IndexKey for TxId {
    ghost same = { tx_eq };

    ghost hash_code = { λ t. tx_hash t.centre t.epoch t.seq };

    ghost one = { tx_eq-one };

    fn is_same(&self, other: &TxId) -> bool {
        self.is(other)
    }

    fn hash_code(&self) -> u64 {
        tx_hash(self.centre.number(), self.epoch, self.seq)
    }
}

impl IndexKey for Key {
    ghost same = { key_eq };

    ghost hash_code = { bytes_hash };

    ghost one = { key_eq-one };

    fn is_same(&self, other: &Key) -> bool {
        self.is(other)
    }

    fn hash_code(&self) -> u64 {
        bytes_hash(self.bytes())
    }
}

impl IndexKey for (Key, u64) {
    ghost same = { instance_eq };

    ghost hash_code = { λ k. instance_hash k.0 k.1 };

    ghost one = { instance_eq-one };

    fn is_same(&self, other: &(Key, u64)) -> bool {
        self.0.is(&other.0) && self.1 == other.1
    }

    fn hash_code(&self) -> u64 {
        bytes_hash(self.0.bytes()).wrapping_add(self.1)
    }
}
