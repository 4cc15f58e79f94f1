//! Lists of names and named variable lists in MMS (ISO 9506-2, `GetNameList` and the services of
//! named variable lists).

mod define;
mod delete;
mod members;
mod name_list;

pub use define::{DefineRequest, define_request_from, define_request_len, put_define_request};
pub use delete::{
    DeleteRequest, DeleteResponse, delete_request_from, delete_request_len, delete_response_from,
    delete_response_len, put_delete_request, put_delete_response,
};
pub use members::{
    MembersRequest, MembersResponse, members_request_from, members_request_len,
    members_response_from, members_response_len, put_members_request, put_members_response,
};
pub use name_list::{
    NameListRequest, NameListResponse, name_list_request_from, name_list_request_len,
    name_list_response_from, name_list_response_len, put_name_list_request, put_name_list_response,
};
