//! Lines of a schedule, written behind a text.
ghost use Rattle.std.specs.Prelude.{◌≡◌, ◌++◌, ◌+◌, ◌<◌, ◌≤◌, OnOk};
ghost use Rattle.std.specs.String.{string_bytes};
ghost use Rattle.mdcc_sample.specs.Orders.{AreItemsWithin};
ghost use Rattle.mdcc_sample.specs.Texts.{add_text, adds_text, begin_text, insert_text, last_settle_text, order_text, reads_text, settle_if, shop_header_text, shop_item_text, shop_read_text, ticks_text, turn_text};

use crate::orders::{Order, Three};
use std::alloc::AllocError;

/// Adds the header.
pub(crate) fn write_header(text: &mut String) -> Result<(), AllocError>
    ensures { OnOk result (string_bytes text.new ≡ string_bytes text.old ++ shop_header_text) }
{
    write!(
        text,
        "mdcc-schedule 1\nquorums 5 3 4\ngamma 100\nbound 0 1000000\nstart\n"
    )
}

// Adds a settle where a test holds.
fn settle_if(test: bool, text: &mut String) -> Result<(), AllocError>
    ensures { OnOk result (string_bytes text.new ≡ string_bytes text.old ++ settle_if test) }
{
    if test {
        write!(text, "settle\n")?;
    }
    Ok(())
}

// Adds the insertion of an item.
fn write_insert(number: u32, text: &mut String) -> Result<(), AllocError>
    requires { 0 < number }
    ensures { OnOk result (string_bytes text.new ≡ string_bytes text.old ++ insert_text number) }
{
    let centre = (number - 1) % 5 + 1;
    write!(text, "begin {centre} new:item/{number}:-:1000\n")
}

/// Adds what an item takes, by its number from 1.
pub(crate) fn write_item(items: u32, number: u32, text: &mut String) -> Result<(), AllocError>
    requires { 0 < number }
    ensures { OnOk result (string_bytes text.new ≡ string_bytes text.old ++ shop_item_text items number) }
{
    write_insert(number, text)?;
    settle_if(number % 50 == 0 || number == items, text)
}

// Adds a read of an item, by its index.
fn write_read(centre: u32, item: u32, text: &mut String) -> Result<(), AllocError>
    requires { item < 1000 }
    ensures { OnOk result (string_bytes text.new ≡ string_bytes text.old ++ shop_read_text centre item) }
{
    let number = item + 1;
    write!(text, "read {centre} item/{number}\n")
}

// Adds an amount that is taken of what a read saw.
fn write_add(read: u32, amount: u32, text: &mut String) -> Result<(), AllocError>
    ensures { OnOk result (string_bytes text.new ≡ string_bytes text.old ++ add_text read amount) }
{
    write!(text, " add:{read}:1=-{amount}")
}

// Adds the reads of an order.
fn write_reads(order: &Order, text: &mut String) -> Result<(), AllocError>
    requires { AreItemsWithin 200 order.now.items }
    ensures { OnOk result (string_bytes text.new ≡ string_bytes text.old ++ reads_text order.now) }
{
    write_read(order.centre, order.items.first, text)?;
    write_read(order.centre, order.items.second, text)?;
    write_read(order.centre, order.items.third, text)
}

// Adds the three adds of an order, before which so many reads were made.
fn write_adds(reads: u32, amounts: &Three, text: &mut String) -> Result<(), AllocError>
    requires { reads < 10000 }
    ensures { OnOk result (string_bytes text.new ≡ string_bytes text.old ++ adds_text reads amounts.now) }
{
    write_add(reads + 1, amounts.first, text)?;
    write_add(reads + 2, amounts.second, text)?;
    write_add(reads + 3, amounts.third, text)
}

// Adds the beginning of an order, before which so many reads were made.
fn write_begin(reads: u32, order: &Order, text: &mut String) -> Result<(), AllocError>
    requires { reads < 10000 }
    ensures { OnOk result (string_bytes text.new ≡ string_bytes text.old ++ begin_text reads order.now) }
{
    let centre = order.centre;
    write!(text, "begin {centre}")?;
    write_adds(reads, &order.amounts, text)?;
    write!(text, "\n")
}

// Adds what comes before an order, by its number from 1.
fn write_turn(third: u32, number: u32, text: &mut String) -> Result<(), AllocError>
    requires { third ≤ 1000 }
    ensures { OnOk result (string_bytes text.new ≡ string_bytes text.old ++ turn_text third number) }
{
    if third > 0 && number == third + 1 {
        write!(text, "crash 3\n")?;
    } else if third > 0 && number == 2 * third + 1 {
        write!(text, "restart 3\nsettle\n")?;
    }
    Ok(())
}

/// Adds what an order takes, by its number from 1.
pub(crate) fn write_order(
    orders: u32,
    number: u32,
    order: &Order,
    text: &mut String,
) -> Result<(), AllocError>
    requires some { 0 < number }
    requires few { orders ≤ 1000 }
    requires among { number ≤ orders }
    requires within { AreItemsWithin 200 order.now.items }
    ensures { OnOk result (string_bytes text.new ≡ string_bytes text.old ++ order_text orders number order.now) }
{
    write_turn(orders / 3, number, text)?;
    write_reads(order, text)?;
    write_begin(3 * (number - 1), order, text)?;
    settle_if(number % 8 == 0, text)
}

/// Adds the end, at which all comes to rest.
pub(crate) fn write_end(text: &mut String) -> Result<(), AllocError>
    ensures { OnOk result (string_bytes text.new ≡ string_bytes text.old ++ last_settle_text) }
{
    settle_if(true, text)?;
    write_ticks(text)?;
    write_ticks(text)
}

// Adds a tick of each centre.
fn write_ticks(text: &mut String) -> Result<(), AllocError>
    ensures { OnOk result (string_bytes text.new ≡ string_bytes text.old ++ ticks_text) }
{
    write!(text, "tick 1\ntick 2\ntick 3\ntick 4\ntick 5\nsettle\n")
}
