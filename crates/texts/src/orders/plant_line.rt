//! Lines of orders, written to the sink of a plant.
ghost use Rattle.std.specs.Prelude.{◌≡◌, ◌∷◌, ◌++◌};
ghost use Rattle.bilateral.specs.Rows.{IsCentre, device_of};
ghost use Rattle.outside.specs.Sink.{WritesAll};
ghost use Rattle.texts.specs.Orders.PlantLines.{order_text, plant_line, plant_text};

use bilateral::Centre;
use itoa::Buffer;
use outside::{Sink, SinkFailed, write_all};
use sbo_device::Order;

/// Writes orders to a plant, in order, each as the line `order NAME VALUE`. A write that fails is
/// the last. It takes no memory.
pub fn write_orders<K: Sink>(
    plant: &mut K,
    centre: &Centre,
    orders: &[Order],
) -> Result<(), SinkFailed>
    ensures { WritesAll (K.told plant.old) (K.told plant.new) (plant_text centre.now orders.now)
        result }
{
    for order in orders {
        write_order(plant, centre, order)?;
    }
    Ok(())
}

/// Writes the line of an order.
fn write_order<K: Sink>(plant: &mut K, centre: &Centre, order: &Order) -> Result<(), SinkFailed>
    ensures { WritesAll (K.told plant.old) (K.told plant.new) (plant_line centre.now order.now)
        result }
{
    let mut digits = Buffer::new();
    let value = digits.format(order.value);
    write_text(plant, device_name(centre, order.device), value.as_bytes())?;
    write_all(plant, b"\n")
}

/// Writes the text of an order: a device's name, and a value in digits.
fn write_text<K: Sink>(plant: &mut K, name: &[u8], value: &[u8]) -> Result<(), SinkFailed>
    ensures { WritesAll (K.told plant.old) (K.told plant.new) (order_text name.now value.now)
        result }
{
    write_all(plant, b"order ")?;
    write_words(plant, name, value)
}

/// Writes a name and a value in digits, with a space between them.
fn write_words<K: Sink>(plant: &mut K, name: &[u8], value: &[u8]) -> Result<(), SinkFailed>
    ensures { WritesAll (K.told plant.old) (K.told plant.new) (name.now ++ 32 ∷ value.now) result }
{
    write_all(plant, name)?;
    write_value(plant, value)
}

/// Writes a space and a value in digits.
fn write_value<K: Sink>(plant: &mut K, value: &[u8]) -> Result<(), SinkFailed>
    ensures { WritesAll (K.told plant.old) (K.told plant.new) (32 ∷ value.now) result }
{
    write_all(plant, b" ")?;
    write_all(plant, value)
}

/// The name of the device with this number; where there is none, no octet.
fn device_name(centre: &Centre, device: u32) -> &[u8]
    ensures name { result.now ≡ (device_of centre.now device).name }
    ensures lawful { IsCentre centre.now }
{
    if device < centre.devices() {
        centre.device(device).name.as_slice()
    } else {
        &[]
    }
}
