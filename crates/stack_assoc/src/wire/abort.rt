//! The abort, which takes no memory.
ghost use Rattle.std.specs.Prelude.{◌≡◌, ℕ, ◌+◌, ◌≤◌, ◌++◌, length, vec_len, vec_capacity};
ghost use Rattle.tpkt_cotp.specs.Written.{wire};
ghost use Rattle.stack_assoc.specs.Wire.Layouts.{abort_packet};
ghost use Rattle.stack_assoc.specs.Wire.Tsdus.{abort_tsdu};

/// Appends octets for which there is room.
fn append(out: &mut Vec<u8>, octets: &[u8])
    requires { vec_len out.old + length octets.now ≤ vec_capacity out.old }
    ensures items { out.new.items ≡ out.old.items ++ octets.now }
    ensures len { vec_len out.new ≡ vec_len out.old + length octets.now }
    ensures room { vec_capacity out.old ≤ vec_capacity out.new }
{
    out.extend_from_slice(octets).unwrap();
}

/// Appends the abort in the context whose id has these contents octets.
fn put_abort(out: &mut Vec<u8>, id: &[u8])
    requires few { (1 ≤ length id.now) × (length id.now ≤ 3) }
    requires room { vec_len out.old + 64 ≤ vec_capacity out.old }
    ensures { out.new.items ≡ out.old.items ++ abort_packet id.now }
{
    let len = id.len() as u8;
    append(
        out,
        &[
            0x03,
            0x00,
            0x00,
            29 + len,
            0x02,
            0xF0,
            0x80,
            0x19,
            20 + len,
            0x11,
            0x01,
            0x0B,
            0xC1,
            15 + len,
            0xA0,
            13 + len,
            0x61,
            11 + len,
            0x30,
            9 + len,
            0x02,
            len,
        ],
    );
    append(out, id);
    append(out, &[0xA0, 0x05, 0x64, 0x03, 0x80, 0x01, 0x00]);
}

/// Appends the abort, in ACSE's context: ABORT (ISO 8327-1) with ABRT (ISO 8650-1). It takes no
/// memory.
pub fn write_abort(out: &mut Vec<u8>, acse: u32)
    requires named { acse ≤ 65535 }
    requires room { vec_len out.old + 64 ≤ vec_capacity out.old }
    ensures { (size : ℕ) → 128 ≤ size
        → out.new.items ≡ out.old.items ++ wire size (abort_tsdu acse) }
{
    let high = (acse / 256) as u8;
    let low = (acse % 256) as u8;
    if acse < 128 {
        put_abort(out, &[low])
    } else if acse < 32_768 {
        put_abort(out, &[high, low])
    } else {
        put_abort(out, &[0, high, low])
    }
}
