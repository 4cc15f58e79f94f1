//! What a line of a device says beside its name.
ghost use Rattle.std.specs.Prelude.{◌≡◌, IfSome};
ghost use Rattle.plain_text.specs.Words.{words};
ghost use Rattle.bilateral.specs.Words.Devices.{form_in, sbo_form, direct_form, order_in, range_in};
ghost use Rattle.bilateral.specs.Words.Devices.{natural_of, short_in, span_in, IsRange, IsDeviceLine};

use plain_text::{next_word, read_integer, two_words};
use sbo_device::CommandKind;

/// What a line says of a device beside its name.
#[derive(Clone, Copy, Debug)]
pub struct DeviceForm {
    pub kind: CommandKind,
    pub direct: bool,
    pub checkback: i16,
    pub span: u64,
}

/// `COMMAND sbo CHECKBACK MS` or `COMMAND direct`, where the command is `command` or
/// `setpoint LOW HIGH`.
pub fn read_device_form(text: &[u8]) -> Option<DeviceForm>
    ensures value { result ≡ order_in (words text.now) }
    ensures lawful { IfSome result IsDeviceLine }
{
    let (command, more) = next_word(text)?;
    if command == b"command".as_slice() {
        read_form(CommandKind::Command, more)
    } else if command == b"setpoint".as_slice() {
        let (low, more) = next_word(more)?;
        let (high, more) = next_word(more)?;
        read_form(read_range(low, high)?, more)
    } else {
        None
    }
}

/// `LOW HIGH`.
fn read_range(low: &[u8], high: &[u8]) -> Option<CommandKind>
    ensures value { result ≡ range_in low.now high.now }
    ensures lawful { IfSome result IsRange }
{
    let low = read_short(low)?;
    let high = read_short(high)?;
    if low <= high {
        Some(CommandKind::Setpoint { low, high })
    } else {
        None
    }
}

/// A signed number of 16 bits.
fn read_short(word: &[u8]) -> Option<i16>
    ensures { result ≡ short_in word.now }
{
    Some(read_integer(word, -32_768, 32_767)? as i16)
}

/// `sbo CHECKBACK MS` or `direct`.
fn read_form(kind: CommandKind, text: &[u8]) -> Option<DeviceForm>
    requires { IsRange kind }
    ensures value { result ≡ form_in kind (words text.now) }
    ensures lawful { IfSome result IsDeviceLine }
{
    let (mode, more) = next_word(text)?;
    if mode == b"sbo".as_slice() {
        read_sbo(kind, more)
    } else if mode == b"direct".as_slice() {
        read_direct(kind, more)
    } else {
        None
    }
}

/// `CHECKBACK MS`.
fn read_sbo(kind: CommandKind, text: &[u8]) -> Option<DeviceForm>
    requires { IsRange kind }
    ensures value { result ≡ sbo_form kind (words text.now) }
    ensures lawful { IfSome result IsDeviceLine }
{
    let (checkback, span) = two_words(text)?;
    let checkback = read_short(checkback)?;
    let span = read_span(span)?;
    Some(DeviceForm {
        kind,
        direct: false,
        checkback,
        span,
    })
}

/// Nothing more.
fn read_direct(kind: CommandKind, text: &[u8]) -> Option<DeviceForm>
    requires { IsRange kind }
    ensures value { result ≡ direct_form kind (words text.now) }
    ensures lawful { IfSome result IsDeviceLine }
{
    match next_word(text) {
        Some(_) => None,
        None => Some(DeviceForm {
            kind,
            direct: true,
            checkback: 0,
            span: 0,
        }),
    }
}

/// A signed number of 32 bits, which below 0 counts as 0.
fn read_span(word: &[u8]) -> Option<u64>
    ensures { result ≡ span_in word.now }
{
    Some(not_below_zero(read_integer(word, -2_147_483_648, 2_147_483_647)?))
}

fn not_below_zero(number: i64) -> u64
    ensures { result ≡ natural_of number }
{
    if number < 0 { 0 } else { number as u64 }
}
