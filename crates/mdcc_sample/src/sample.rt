//! The whole text.
ghost use Rattle.std.specs.Prelude.{◌≡◌, ◌++◌, ◌<◌, ◌≤◌, ◌^◌, IfOk, OnOk, length};
ghost use Rattle.std.specs.String.{string_bytes};
ghost use Rattle.mdcc_sample.specs.Shop.{IsShop};
ghost use Rattle.mdcc_sample.specs.Texts.{is_down, items_text, order_from, orders_from, sample_text};

use crate::draws::generator;
use crate::orders::draw_order;
use crate::writing::{write_end, write_header, write_item, write_order};
use mdcc_base::Memory;
use rand_pcg::Lcg64Xsh32;
use std::alloc::{AllocError, Global};

/// No sample's text has more bytes.
pub const LONGEST: usize = 131_072;

// Adds the items.
fn write_items(items: u32, text: &mut String) -> Result<(), AllocError>
    requires { items ≤ 200 }
    ensures { OnOk result (string_bytes text.new ≡ string_bytes text.old ++ items_text items items) }
{
    for index in 0..items {
        write_item(items, index + 1, text)?;
    }
    Ok(())
}

// Whether centre 3 is down at the order of this number.
fn is_down(orders: u32, number: u32) -> bool
    ensures { result ≡ is_down orders number }
{
    orders / 3 < number && number <= 2 * (orders / 3)
}

// Adds the order of this number, which draws from a generator.
#[tactic(auto, unfolding(crate::specs::Texts::order_from))]
fn write_next(
    items: u32,
    orders: u32,
    number: u32,
    generator: &mut Lcg64Xsh32,
    text: &mut String,
) -> Result<(), AllocError>
    requires shop { IsShop items orders }
    requires some { 0 < number }
    requires among { number ≤ orders }
    ensures written { OnOk result (string_bytes text.new ≡ string_bytes text.old ++ (order_from items orders number generator.old).text) }
    ensures drawn { generator.new ≡ (order_from items orders number generator.old).generator }
{
    let order = draw_order(generator, items, is_down(orders, number));
    write_order(orders, number, &order, text)
}

// Adds the orders, which draw from a generator.
fn write_orders(
    items: u32,
    orders: u32,
    generator: &mut Lcg64Xsh32,
    text: &mut String,
) -> Result<(), AllocError>
    requires { IsShop items orders }
    ensures { OnOk result (string_bytes text.new ≡ string_bytes text.old ++ (orders_from items orders generator.old orders).text) }
{
    for index in 0..orders {
        write_next(items, orders, index + 1, generator, text)?;
    }
    Ok(())
}

// The text of the schedule.
#[tactic(auto, unfolding(crate::specs::Texts::sample_text))]
fn written(alloc: Global, seed: u64, items: u32, orders: u32) -> Result<String, AllocError>
    requires { IsShop items orders }
    ensures { IfOk result (λ text. string_bytes text ≡ sample_text seed items orders) }
{
    let mut text = String::new(alloc);
    write_header(&mut text)?;
    write_items(items, &mut text)?;
    write_orders(items, orders, &mut generator(seed), &mut text)?;
    write_end(&mut text)?;
    Ok(text)
}

/// The schedule of a shop with so many items and orders, whose numbers are drawn from a seed.
#[tactic(auto, using(crate::proofs::Lengths::sample_is_short))]
pub fn sample_text(alloc: Global, seed: u64, items: u32, orders: u32) -> Result<Vec<u8>, Memory>
    requires { IsShop items orders }
    ensures text { IfOk result (λ text. text.items ≡ sample_text seed items orders) }
    ensures short { IfOk result (λ text. length text.items ≤ LONGEST) }
{
    let text = written(alloc, seed, items, orders)?;
    Ok(text.into_bytes())
}
