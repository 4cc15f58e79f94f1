//! Steps of the writers.
ghost use Rattle.std.specs.Prelude.{◌≡◌, ◌≢◌, ◌+◌, ◌%◌, ◌^◌, ◌<◌, ◌≤◌, ◌++◌, take, length};
ghost use Rattle.std.specs.Prelude.{OnOk, OnErr};
ghost use Rattle.plain_text.specs.Extends.{Extends};
ghost use Rattle.ber_values.specs.Writing.{octets_of, length_size, length_octets, head_octets};
ghost use Rattle.ber_values.specs.Writing.{written};

use std::alloc::AllocError;

/// Takes back what was appended since `out` had `mark` octets, where a step failed.
pub fn or_undo(
    out: &mut Vec<u8>,
    mark: usize,
    done: Result<(), AllocError>,
) -> Result<(), AllocError>
    ensures same { result ≡ done }
    ensures ok { OnOk result (out.new.items ≡ out.old.items) }
    ensures err { OnErr result (out.new.items ≡ take mark out.old.items) }
{
    if done.is_err() {
        out.truncate(mark);
    }
    done
}

/// The last `count` octets of a number.
pub(crate) fn put_number(out: &mut Vec<u8>, number: u64, count: usize) -> Result<(), AllocError>
    ensures ok { OnOk result (out.new.items ≡ out.old.items ++ octets_of count number) }
    ensures err { OnErr result (Extends out.old.items out.new.items) }
{
    if count == 0 {
        return Ok(());
    }
    put_number(out, number / 256, count - 1)?;
    out.push((number % 256) as u8)?;
    Ok(())
}

/// How many octets follow the first one of a length from 128 on.
pub(crate) fn size_of_length(len: usize) -> u8
    requires { len < 2 ^ 32 }
    ensures value { result ≡ length_size len }
    ensures few { result ≤ 4 }
{
    if len < 0x100 {
        1
    } else if len < 0x1_0000 {
        2
    } else if len < 0x100_0000 {
        3
    } else {
        4
    }
}

#[tactic(auto, unfolding(crate::specs::Writing::length_octets))]
fn put_length(out: &mut Vec<u8>, len: usize) -> Result<(), AllocError>
    requires { len < 2 ^ 32 }
    ensures ok { OnOk result (out.new.items ≡ out.old.items ++ length_octets len) }
    ensures err { OnErr result (Extends out.old.items out.new.items) }
{
    if len < 128 {
        out.push(len as u8)?;
        return Ok(());
    }
    let size = size_of_length(len);
    out.push(128 + size)?;
    put_number(out, len as u64, usize::from(size))
}

pub(crate) fn put_head(out: &mut Vec<u8>, tag: u8, len: usize) -> Result<(), AllocError>
    requires { len < 2 ^ 32 }
    ensures ok { OnOk result (out.new.items ≡ out.old.items ++ head_octets tag len) }
    ensures err { OnErr result (Extends out.old.items out.new.items) }
{
    out.push(tag)?;
    put_length(out, len)
}

/// An element of these contents.
pub(crate) fn put_element(out: &mut Vec<u8>, tag: u8, contents: &[u8]) -> Result<(), AllocError>
    requires { length contents.now < 2 ^ 32 }
    ensures ok { OnOk result (out.new.items ≡ out.old.items ++ written tag contents.now) }
    ensures err { OnErr result (Extends out.old.items out.new.items) }
{
    put_head(out, tag, contents.len())?;
    out.extend_from_slice(contents)
}

/// Appends an element of these contents. After want of memory `out` is as before.
pub fn write_octets(out: &mut Vec<u8>, tag: u8, contents: &[u8]) -> Result<(), AllocError>
    requires single { tag % 32 ≢ 31 }
    requires bounded { length contents.now < 2 ^ 32 }
    ensures ok { OnOk result (out.new.items ≡ out.old.items ++ written tag contents.now) }
    ensures err { OnErr result (out.new.items ≡ out.old.items) }
{
    let mark = out.len();
    let done = put_element(out, tag, contents);
    or_undo(out, mark, done)
}
