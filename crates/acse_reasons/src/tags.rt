// The tags of the records of association control (docs/TAGS.md).
pub const ACSE_PDU: u64 = 140;

pub const RELEASE_REQUEST_REASON: u64 = 141;

pub const RELEASE_RESPONSE_REASON: u64 = 142;

pub const ABORT_SOURCE: u64 = 143;

pub const ABORT_DIAGNOSTIC: u64 = 144;
