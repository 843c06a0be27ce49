// The tags of the records of context management (docs/TAGS.md).
#![tactic(auto)]

pub const CM_GROUND_PDU: u64 = 110;

pub const CM_AIRCRAFT_PDU: u64 = 111;

pub const CM_ABORT_REASON: u64 = 112;

pub const CM_FORWARD_RESPONSE: u64 = 113;

pub const CONTACT_RESPONSE: u64 = 114;

pub const FLIGHT_ID: u64 = 115;

pub const RDP: u64 = 116;

pub const ARS: u64 = 117;

pub const LOC_SYS_NSEL_TSEL: u64 = 118;

pub const AIR_INITIATED: u64 = 119;

pub const GROUND_ONLY_INITIATED: u64 = 120;

pub const GROUND_INITIATED: u64 = 121;

pub const AIR_ONLY_INITIATED: u64 = 122;

pub const AE_QUALIFIER: u64 = 123;

pub const AP_VERSION: u64 = 124;

pub const AIRPORT_DEPARTURE: u64 = 125;

pub const AIRPORT_DESTINATION: u64 = 126;

pub const ETD_YEAR: u64 = 127;

pub const ETD_MONTH: u64 = 128;

pub const ETD_DAY: u64 = 129;

pub const ETD_HOURS: u64 = 130;

pub const ETD_MINUTES: u64 = 131;
