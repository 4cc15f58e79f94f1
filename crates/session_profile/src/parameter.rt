//! Parameters (ISO 8327-1, PI and PGI units), and SPDUs, which have the same form: an identifier, a
//! length and contents.
ghost use Rattle.std.specs.Prelude.{◌≡◌, ◌+◌, ◌^◌, ◌<◌, ◌≤◌, ◌++◌, ◌∷◌, length, take, IfOk, OnOk};
ghost use Rattle.std.specs.Prelude.{OnErr};
ghost use Rattle.ber_values.specs.Faults.{Gives};
ghost use Rattle.ber_values.specs.Leaves.{span_at};
ghost use Rattle.session_profile.specs.Parameters.{parameter_in, judged_by};
ghost use Rattle.session_profile.specs.Parameters.{spdu_end_in};
ghost use Rattle.session_profile.specs.Seen.{parameter_of, taken_parameter_of, IsParameterWithin};
ghost use Rattle.session_profile.specs.Writing.{session_length_octets, element};

use crate::length::{put_length, read_length};
use ber_values::{BerFault, Span, Why, fault_at, short, surplus};
use std::alloc::AllocError;

/// A parameter or an SPDU that stood at the front of octets, and what follows it.
#[derive(Clone, Copy)]
pub(crate) struct Parameter<'a> {
    /// The identifier of a parameter, the code of an SPDU.
    pub(crate) identifier: u8,
    /// The place of its first octet.
    pub(crate) place: usize,
    /// The place of its first contents octet.
    pub(crate) body: usize,
    pub(crate) contents: &'a [u8],
    /// The place after it.
    pub(crate) next: usize,
    /// The octets from there on.
    pub(crate) rest: &'a [u8],
}

/// The parameter at the front. `at` is the place of the first octet.
#[tactic(auto, unfolding(crate::specs::Parameters::parameter_in))]
pub(crate) fn read_parameter(octets: &[u8], at: usize) -> Result<Parameter<'_>, BerFault>
    requires { at + length octets.now < 2 ^ 64 }
    ensures exact { Gives taken_parameter_of result (parameter_in at octets.now) }
    ensures within { IfOk result (λ p. IsParameterWithin at octets.now p) }
{
    let [identifier, rest @ ..] = octets else {
        return Err(short(at));
    };
    let (length, body, rest) = read_length(rest, at + 1)?;
    if rest.len() < length {
        return Err(fault_at(at + 1, Why::Length));
    }
    let (contents, rest) = rest.split_at(length);
    Ok(Parameter {
        identifier: *identifier,
        place: at,
        body,
        contents,
        next: body + length,
        rest,
    })
}

impl Parameter<'_> {
    /// Where its contents stand.
    pub(crate) fn span(&self) -> Span
        requires { self.now.body + length self.now.contents.now < 2 ^ 64 }
        ensures { result ≡ span_at self.now.body self.now.contents.now }
    {
        Span {
            from: self.body,
            to: self.body + self.contents.len(),
        }
    }

    /// Judges its contents: the length before the rule.
    pub(crate) fn judge(&self, allowed: bool, kept: bool) -> Result<(), BerFault>
        requires { self.now.place + 1 < 2 ^ 64 }
        ensures { result ≡ judged_by allowed kept (parameter_of self.now) }
    {
        if !allowed {
            return Err(fault_at(self.place + 1, Why::Length));
        }
        if !kept {
            return Err(fault_at(self.body, Why::Value));
        }
        Ok(())
    }
}

/// Nothing may follow.
pub(crate) fn read_end(octets: &[u8], at: usize) -> Result<(), BerFault>
    ensures { result ≡ spdu_end_in (tt {0}) at octets.now }
{
    match octets {
        [] => Ok(()),
        _ => Err(surplus(at)),
    }
}

/// How many octets a parameter of so many contents octets has.
#[tactic(auto, unfolding(crate::specs::Writing::session_length_octets))]
pub(crate) fn element_len(len: usize) -> usize
    requires { len < 2 ^ 16 }
    ensures exact { result ≡ 1 + length (session_length_octets len) + len }
    ensures small { result ≤ len + 4 }
{
    if len < 255 { len + 2 } else { len + 4 }
}

/// Appends an identifier or a code, and the shortest length.
pub(crate) fn put_head(out: &mut Vec<u8>, identifier: u8, len: usize) -> Result<(), AllocError>
    requires { len < 2 ^ 16 }
    ensures ok { OnOk result (out.new.items ≡ out.old.items ++ identifier ∷ session_length_octets
        len) }
    ensures err { OnErr result (take (length out.old.items) out.new.items ≡ out.old.items) }
{
    out.push(identifier)?;
    put_length(out, len)
}

/// Appends an identifier, the shortest length and the contents.
pub(crate) fn put_element(
    out: &mut Vec<u8>,
    identifier: u8,
    contents: &[u8],
) -> Result<(), AllocError>
    requires { length contents.now < 2 ^ 16 }
    ensures ok { OnOk result (out.new.items ≡ out.old.items ++ element identifier contents.now) }
    ensures err { OnErr result (take (length out.old.items) out.new.items ≡ out.old.items) }
{
    put_head(out, identifier, contents.len())?;
    out.extend_from_slice(contents)
}
