//! The tags of APDUs, and the numbers of elements of AARQ and AARE and their tags.

/// Tags of APDUs.
pub(crate) const AARQ: u8 = 0x60;

pub(crate) const AARE: u8 = 0x61;

pub(crate) const RLRQ: u8 = 0x62;

pub(crate) const RLRE: u8 = 0x63;

pub(crate) const ABRT: u8 = 0x64;

/// `application-context-name`
pub(crate) const CONTEXT_NAME: u32 = 1;

pub(crate) const CONTEXT_NAME_TAG: u8 = 0xA1;

/// `result`
pub(crate) const RESULT: u32 = 2;

pub(crate) const RESULT_TAG: u8 = 0xA2;

/// `calling-AP-title`
pub(crate) const CALLING_TITLE: u32 = 6;

pub(crate) const CALLING_TITLE_TAG: u8 = 0xA6;

/// `user-information`
pub(crate) const USER_INFORMATION: u32 = 30;

pub(crate) const USER_INFORMATION_TAG: u8 = 0xBE;

/// The largest number of a tag.
pub(crate) const LARGEST_NUMBER: u32 = 16_383;

/// The largest result that is read.
pub(crate) const LARGEST_RESULT: u32 = 255;

/// Tags of universal types.
pub(crate) const INTEGER: u8 = 0x02;

pub(crate) const OBJECT_IDENTIFIER: u8 = 0x06;

pub(crate) const EXTERNAL: u8 = 0x28;
