//! Values of ASN.1 that stand in protocol data: visible text, bit strings and object identifiers.
#![tactic(auto)]

mod bit_string;
mod boolean;
mod extent;
mod external;
mod fault;
mod faults;
mod head;
mod integer;
mod laws;
mod lengths;
mod number;
mod object_identifier;
mod part;
mod part_values;
mod passing;
mod stop;
mod tag;
mod visible_string;
mod writing;

pub use bit_string::{BitString, read_bits, write_bits};
pub use boolean::{read_boolean, write_boolean};
pub use extent::MOST_CHAINED;
pub use external::{External, external_len, write_external};
pub use fault::{BerFault, Span, Why};
pub use faults::{fault_at, length_fault, refused, short, surplus, value_fault};
pub use head::{Head, read_head, write_head};
pub use integer::{read_integer, read_unsigned, write_integer, write_natural};
pub use laws::{one_reading, passing_takes_the_longest_run, written_is_read, written_is_shortest};
pub use lengths::{MOST_BODY, MOST_LENGTH, add_len, integer_len, natural_len, part_len};
pub use object_identifier::{ARC_LIMIT, OID_LIMIT, Oid, read_dotted, read_oid, write_oid};
pub use part::{Part, has_tag, is_context, octets_from, take_end, take_part};
pub use passing::{skip_part, skip_parts};
pub use stop::{Stop, settle};
pub use tag::{Tag, read_tag};
pub use visible_string::{VISIBLE_LIMIT, Visible, is_visible, read_visible, write_visible};
pub use writing::{or_undo, write_octets};
