//! Reads, writes, reports and types of variables in MMS, and how variables are named there
//! (ISO 9506-2, variable access services).

mod read;
mod report;
mod spec;
mod type_of;
mod write;

pub use read::{
    Outcomes, ReadRequest, ReadResponse, put_read_request, put_read_response, read_request_from,
    read_request_len, read_response_from, read_response_len,
};
pub use report::{ReportPdu, put_report_pdu, report_pdu_from, report_pdu_len};
pub use spec::{Spec, name_from, put_variables, variables_from, variables_len};
pub use type_of::{
    TypeRequest, TypeResponse, put_type_request, put_type_response, type_request_from,
    type_request_len, type_response_from, type_response_len,
};
pub use write::{
    WriteRequest, WriteResponse, put_write_request, put_write_response, write_request_from,
    write_request_len, write_response_from, write_response_len,
};
