//! Transactions that are not resolved.
ghost use Rattle.mdcc_base.specs.TxId.{tx_eq};

use crate::facts::{aborted, tx, voted, write};
use mdcc_base::TxId;
use mdcc_cells_tables::{HeardTest, UnresolvedTable};
use std::test::Fail;

// A test of which one transaction was heard.
#[derive(Clone, Copy)]
struct OneHeard {
    tx: TxId,
}

impl HeardTest for OneHeard {
    ghost heard = { λ test tx. tx_eq tx test.tx };

    fn is_heard(&self, tx: TxId) -> bool {
        tx.is(&self.tx)
    }
}

#[test]
fn choices_stand_until_they_are_heard(rt: HostRuntime) -> Result<(), Fail> {
    let test = OneHeard { tx: tx(9) };
    let mut table = UnresolvedTable::new(rt.alloc(), 8)?;
    let offered = Some(write(b'a', 2, 0));
    table.add(&voted(rt.alloc(), b'a', 6, offered)?, 0, &test);
    table.add(&voted(rt.alloc(), b'b', 2, None)?, 1, &test);
    table.add(&voted(rt.alloc(), b'b', 9, None)?, 2, &test);
    assert_eq!(rt; table.len(), 2);
    assert_eq!(rt;
        (table.get(0), table.get(1), table.get(2)),
        (Some((tx(2), 0)), Some((tx(6), 0)), None)
    );
    table.add(&aborted(6), 3, &test);
    assert_eq!(rt;
        (table.len(), table.find(tx(2)), table.find(tx(6))),
        (1, Some(0), None)
    );
    Ok(())
}
