//! How large a shop may be.
ghost use Rattle.std.specs.Prelude.{◌≡◌, ◌↔◌, IsTrue};
ghost use Rattle.mdcc_sample.specs.Shop.{IsShop, is_shop};

/// Whether a shop may have so many items, and so many orders.
pub fn is_shop(items: u32, orders: u32) -> bool
    ensures value { result ≡ is_shop items orders }
    ensures shop { IsTrue result ↔ IsShop items orders }
{
    (3..=200).contains(&items) && orders <= 1000 && orders <= 5 * items
}
