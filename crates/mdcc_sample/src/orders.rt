//! What is ordered, where, and how much of it.
ghost use Rattle.std.specs.Prelude.{◌≡◌, ◌+◌, ◌<◌, ◌≤◌};
ghost use Rattle.mdcc_sample.specs.Orders.{AreItemsWithin, amounts_drawn, centre_drawn, free_item, items_of, next_item, order_drawn, other_item, serving_centre, third_item};

use crate::draws::draw;
use rand_pcg::Lcg64Xsh32;

/// Three numbers.
#[derive(Clone, Copy)]
pub(crate) struct Three {
    pub first: u32,
    pub second: u32,
    pub third: u32,
}

/// An order: the centre that takes it, the indices of its items and how many pieces of each.
#[derive(Clone, Copy)]
pub(crate) struct Order {
    pub centre: u32,
    pub items: Three,
    pub amounts: Three,
}

// A centre that is up.
fn serving_centre(centre: u32, is_down: bool) -> u32
    ensures { result ≡ serving_centre centre is_down }
{
    if is_down && centre == 3 { 4 } else { centre }
}

// The centre that takes an order.
fn draw_centre(generator: &mut Lcg64Xsh32, is_down: bool) -> u32
    ensures value { result ≡ (centre_drawn is_down generator.old).0 }
    ensures moved { generator.new ≡ (centre_drawn is_down generator.old).1 }
{
    let drawn = draw(generator, 5);
    serving_centre(drawn + 1, is_down)
}

// The item after another one, the first after the last.
fn next_item(items: u32, item: u32) -> u32
    requires some { 0 < items }
    requires few { items ≤ 200 }
    requires within { item < items }
    ensures value { result ≡ next_item items item }
    ensures below { result < items }
{
    (item + 1) % items
}

// Another item than the first, so many steps after it.
fn other_item(items: u32, first: u32, step: u32) -> u32
    requires few { items ≤ 200 }
    requires within { first < items }
    requires less { step + 1 < items }
    ensures value { result ≡ other_item items first step }
    ensures below { result < items }
{
    (first + 1 + step) % items
}

// The item, or the one after it where it is one of the two.
fn free_item(items: u32, first: u32, second: u32, item: u32) -> u32
    requires some { 0 < items }
    requires few { items ≤ 200 }
    requires within { item < items }
    ensures value { result ≡ free_item items first second item }
    ensures below { result < items }
{
    if item == first || item == second {
        next_item(items, item)
    } else {
        item
    }
}

// The item, or the first after it that is none of the two.
fn third_item(items: u32, first: u32, second: u32, item: u32) -> u32
    requires some { 0 < items }
    requires few { items ≤ 200 }
    requires within { item < items }
    ensures value { result ≡ third_item items first second item }
    ensures below { result < items }
{
    let free = free_item(items, first, second, item);
    free_item(items, first, second, free)
}

// Three items.
fn draw_items(generator: &mut Lcg64Xsh32, items: u32) -> Three
    requires some { 3 ≤ items }
    requires few { items ≤ 200 }
    ensures value { result ≡ (items_of items generator.old).0 }
    ensures moved { generator.new ≡ (items_of items generator.old).1 }
    ensures within { AreItemsWithin items result }
{
    let first = draw(generator, items);
    let step = draw(generator, items - 1);
    let second = other_item(items, first, step);
    let third = draw(generator, items);
    Three {
        first,
        second,
        third: third_item(items, first, second, third),
    }
}

// How many pieces of each.
fn draw_amounts(generator: &mut Lcg64Xsh32) -> Three
    ensures value { result ≡ (amounts_drawn generator.old).0 }
    ensures moved { generator.new ≡ (amounts_drawn generator.old).1 }
{
    let first = draw(generator, 3);
    let second = draw(generator, 3);
    let third = draw(generator, 3);
    Three {
        first: first + 1,
        second: second + 1,
        third: third + 1,
    }
}

/// The next order at a shop with so many items.
pub(crate) fn draw_order(generator: &mut Lcg64Xsh32, items: u32, is_down: bool) -> Order
    requires some { 3 ≤ items }
    requires few { items ≤ 200 }
    ensures value { result ≡ (order_drawn items is_down generator.old).0 }
    ensures moved { generator.new ≡ (order_drawn items is_down generator.old).1 }
    ensures within { AreItemsWithin items result.items }
{
    let centre = draw_centre(generator, is_down);
    let ordered = draw_items(generator, items);
    let amounts = draw_amounts(generator);
    Order {
        centre,
        items: ordered,
        amounts,
    }
}
