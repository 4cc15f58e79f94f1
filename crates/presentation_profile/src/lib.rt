//! The presentation layer (ISO 8823-1).
#![tactic(auto)]

mod accept;
mod agreement;
mod connect;
mod expected;
mod laws;
mod offers;
mod others;
mod ppdu;
mod results;
mod user_data;

pub use agreement::{ACSE, Agreed, ContextFault, MMS, acse_id, agree, mms_id, results_of};
pub use ber_values::MOST_BODY;
pub use expected::Expected;
pub use laws::{
    offers_have_one_reading, ppdus_have_one_reading, written_offers_are_read,
    written_ppdus_are_read,
};
pub use offers::{
    LARGEST_ID, MOST_OFFERS, Offered, Offers, are_offers, offers_len, read_offers, take_offers,
    write_offers,
};
pub use ppdu::{Ppdu, read_ppdu, write_ppdu};
pub use results::Results;
