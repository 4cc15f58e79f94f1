//! What an end of an association says, through all layers (ISO 9506-2, ISO 8650-1, ISO 8823-1,
//! ISO 8327-1, ISO 8073, RFC 1006): TSDUs, and the TPKTs in which they go out.

mod abort;
mod answers;
mod calling;
mod laws;
mod layers;
mod setup;

pub use abort::write_abort;
pub use answers::{write_accept, write_data, write_finish, write_refusal, write_release};
pub use calling::{MMS_CONTEXT, OWN_ACSE, OWN_MMS, own_parameters, write_connect};
pub use laws::{answers_are_laid_out, what_is_written_is_said};
pub use setup::{AssociationSetup, cut_size};
