//! Chains.
use mdcc_cells_chains::Chains;
use std::test::Fail;

#[test]
fn chains_lead_from_the_newest_to_the_oldest(rt: HostRuntime) -> Result<(), Fail> {
    let mut chains = Chains::new(rt.alloc(), 2, 4)?;
    assert_eq!(rt; chains.count(), 2);
    assert_eq!(rt; chains.first(0), None);
    for chain in [0, 1, 0, 0] {
        assert!(rt; chain < chains.count() && !chains.is_full());
        chains.push(chain);
    }
    assert!(rt; chains.is_full());
    for (chain, first) in [(0, Some(3)), (1, Some(1))] {
        assert!(rt; chain < chains.count());
        assert_eq!(rt; chains.first(chain), first, "chain {chain}");
    }
    assert_eq!(rt; chains.len(), 4);
    for (index, next) in [(3, Some(2)), (2, Some(0)), (1, None), (0, None)] {
        assert!(rt; index < chains.len());
        assert_eq!(rt; chains.next(index), next, "at {index}");
    }
    Ok(())
}
