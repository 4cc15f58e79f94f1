//! The words of a table text: names, identifiers, kinds, scopes, layouts, titles, what is said of a
//! device, and numbers with a limit (IEC 60870-6-503, bilateral tables).

mod device_form;
mod layouts;
mod limits;
mod words;

pub use device_form::{DeviceForm, read_device_form};
pub use layouts::{LayoutWhy, read_layout};
pub use limits::read_limit;
pub use words::{
    IDENTIFIER_LIMIT, NAME_LIMIT, is_identifier, is_name, read_kind, read_scope, read_title,
    visible_word,
};
