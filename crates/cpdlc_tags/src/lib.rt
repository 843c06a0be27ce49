// The tags of the records of CPDLC (docs/TAGS.md).
#![tactic(auto)]

pub const DIRECTION: u64 = 1;

pub const PDU: u64 = 2;

pub const EXTENSION_INDEX: u64 = 3;

pub const USER_ABORT_REASON: u64 = 4;

pub const PROVIDER_ABORT_REASON: u64 = 5;

pub const FORWARD_RESPONSE: u64 = 6;

pub const MODE: u64 = 7;

pub const EMPTY: u64 = 8;

pub const MSG_ID: u64 = 9;

pub const MSG_REF: u64 = 10;

pub const YEAR: u64 = 11;

pub const MONTH: u64 = 12;

pub const DAY: u64 = 13;

pub const HOURS: u64 = 14;

pub const MINUTES: u64 = 15;

pub const SECONDS: u64 = 16;

pub const LOGICAL_ACK: u64 = 17;

pub const INTEGRITY_CHECK: u64 = 18;

pub const AIRCRAFT_ID: u64 = 19;

pub const AIRCRAFT_ADDRESS: u64 = 20;

pub const CARRIED_DIRECTION: u64 = 21;

pub const ELEMENT_INDEX: u64 = 22;

pub const POSITION: u64 = 30;

pub const FIX: u64 = 31;

pub const NAVAID: u64 = 32;

pub const AIRPORT: u64 = 33;

pub const COORDINATES: u64 = 34;

pub const LATITUDE: u64 = 35;

pub const LATITUDE_THOUSANDTHS: u64 = 36;

pub const LATITUDE_DEGREES: u64 = 37;

pub const LATITUDE_HUNDREDTHS: u64 = 38;

pub const LATITUDE_MINUTES: u64 = 39;

pub const LATITUDE_SECONDS: u64 = 40;

pub const LATITUDE_SIDE: u64 = 41;

pub const LONGITUDE: u64 = 42;

pub const LONGITUDE_THOUSANDTHS: u64 = 43;

pub const LONGITUDE_DEGREES: u64 = 44;

pub const LONGITUDE_HUNDREDTHS: u64 = 45;

pub const LONGITUDE_MINUTES: u64 = 46;

pub const LONGITUDE_SECONDS: u64 = 47;

pub const LONGITUDE_SIDE: u64 = 48;

pub const SPEED: u64 = 50;

pub const SPEED_NUMBER: u64 = 51;

pub const SPEED_TYPE: u64 = 52;

pub const LEVEL: u64 = 53;

pub const LEVEL_NUMBER: u64 = 54;

pub const DEGREES: u64 = 55;

pub const DEGREES_NUMBER: u64 = 56;

pub const FREQUENCY: u64 = 57;

pub const FREQUENCY_NUMBER: u64 = 58;

pub const SATELLITE_CHANNEL: u64 = 59;

pub const CODE_DIGIT: u64 = 60;

pub const TRAFFIC_TYPE: u64 = 61;

pub const CLEARANCE_TYPE: u64 = 62;

pub const ERROR_INFORMATION: u64 = 63;

pub const FACILITY_FUNCTION: u64 = 64;

pub const PROCEDURE: u64 = 65;

pub const PROCEDURE_NAME: u64 = 66;

pub const PROCEDURE_TRANSITION: u64 = 67;

pub const RUNWAY: u64 = 68;

pub const RUNWAY_SIDE: u64 = 69;

pub const FLIGHT_IDENTIFICATION: u64 = 70;

pub const FLIGHT_INFORMATION: u64 = 71;

pub const FURTHER_INSTRUCTIONS: u64 = 72;

pub const SATELLITE_CHANNEL_X691: u64 = 73;

pub const CLEARANCE: u64 = 80;

pub const DEPARTURE_AIRPORT: u64 = 81;

pub const DESTINATION_AIRPORT: u64 = 82;

pub const DEPARTURE_RUNWAY: u64 = 83;

pub const DEPARTURE_PROCEDURE: u64 = 85;

pub const ARRIVAL_RUNWAY: u64 = 88;

pub const APPROACH_PROCEDURE: u64 = 90;

pub const ARRIVAL_PROCEDURE: u64 = 93;

pub const LEG: u64 = 96;

pub const ROUTE_INFORMATION: u64 = 97;

pub const PUBLISHED: u64 = 98;

pub const PUBLISHED_FIX: u64 = 99;

pub const PUBLISHED_NAVAID: u64 = 100;

pub const ROUTE_DESIGNATOR: u64 = 101;

pub const ADDITIONAL: u64 = 102;
