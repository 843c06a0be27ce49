// The ranges of all fields, in one table of lowest and highest. A low end below zero is 2^64 less its magnitude.
ghost use Rattle.std.specs.Prelude.{◌≡◌, ◌<◌, ◌≤◌};
ghost use Rattle.x691.specs.Types.{extent};
ghost use Rattle.field_ranges.specs.Ranges.{Listed, width_of};

use per::width::bits_for;

#[derive(Clone, Copy)]
pub struct Range {
    // its place in the table
    pub row: usize,
    pub lo: u64,
    pub hi: u64,
}

impl Range {
    // How much its highest is above its lowest.
    pub fn extent(self) -> u64
        ensures { result ≡ extent self.lo self.hi }
    {
        std::num::wrapping_sub_u64(self.hi, self.lo)
    }

    // The fewest bits that hold the extent, and so every number of it by how much it is above the lowest.
    pub fn width(self) -> usize
        ensures { (result ≡ width_of self) × (result ≤ 64) }
    {
        bits_for(self.extent())
    }
}

pub const SIDE: Range = Range {
    row: 0,
    lo: 0,
    hi: 1,
};

pub const YEAR: Range = Range {
    row: 1,
    lo: 1996,
    hi: 2095,
};

pub const MONTH: Range = Range {
    row: 2,
    lo: 1,
    hi: 12,
};

pub const DAY: Range = Range {
    row: 3,
    lo: 1,
    hi: 31,
};

pub const HOURS: Range = Range {
    row: 4,
    lo: 0,
    hi: 23,
};

pub const MINUTES: Range = Range {
    row: 5,
    lo: 0,
    hi: 59,
};

pub const MSG_ID: Range = Range {
    row: 6,
    lo: 0,
    hi: 63,
};

pub const LATITUDE_THOUSANDTHS: Range = Range {
    row: 7,
    lo: 0,
    hi: 90000,
};

pub const LATITUDE_DEGREES: Range = Range {
    row: 8,
    lo: 0,
    hi: 89,
};

pub const HUNDREDTHS: Range = Range {
    row: 9,
    lo: 0,
    hi: 5999,
};

pub const LONGITUDE_THOUSANDTHS: Range = Range {
    row: 10,
    lo: 0,
    hi: 180000,
};

pub const LONGITUDE_DEGREES: Range = Range {
    row: 11,
    lo: 0,
    hi: 179,
};

pub const DEGREES_0: Range = Range {
    row: 12,
    lo: 1,
    hi: 360,
};

pub const DEGREES_1: Range = Range {
    row: 13,
    lo: 1,
    hi: 360,
};

pub const SPEED_0: Range = Range {
    row: 14,
    lo: 0,
    hi: 400,
};

pub const SPEED_1: Range = Range {
    row: 15,
    lo: 0,
    hi: 800,
};

pub const SPEED_2: Range = Range {
    row: 16,
    lo: 0,
    hi: 2000,
};

pub const SPEED_3: Range = Range {
    row: 17,
    lo: 0,
    hi: 4000,
};

pub const SPEED_4: Range = Range {
    row: 18,
    lo: 18446744073709551566,
    hi: 2000,
};

pub const SPEED_5: Range = Range {
    row: 19,
    lo: 18446744073709551516,
    hi: 4000,
};

pub const SPEED_6: Range = Range {
    row: 20,
    lo: 500,
    hi: 4000,
};

pub const LEVEL_0: Range = Range {
    row: 21,
    lo: 18446744073709551556,
    hi: 7000,
};

pub const LEVEL_1: Range = Range {
    row: 22,
    lo: 18446744073709551586,
    hi: 25000,
};

pub const LEVEL_2: Range = Range {
    row: 23,
    lo: 30,
    hi: 700,
};

pub const LEVEL_3: Range = Range {
    row: 24,
    lo: 100,
    hi: 2500,
};

pub const FREQUENCY_0: Range = Range {
    row: 25,
    lo: 2850,
    hi: 28000,
};

pub const FREQUENCY_1: Range = Range {
    row: 26,
    lo: 23600,
    hi: 27398,
};

pub const FREQUENCY_2: Range = Range {
    row: 27,
    lo: 9000,
    hi: 15999,
};

pub const CODE_DIGIT: Range = Range {
    row: 28,
    lo: 0,
    hi: 7,
};

pub const SPEED_TYPE: Range = Range {
    row: 29,
    lo: 0,
    hi: 8,
};

pub const TRAFFIC_TYPE: Range = Range {
    row: 30,
    lo: 0,
    hi: 5,
};

pub const CLEARANCE_TYPE: Range = Range {
    row: 31,
    lo: 0,
    hi: 11,
};

pub const ERROR_INFORMATION: Range = Range {
    row: 32,
    lo: 0,
    hi: 4,
};

pub const FACILITY_FUNCTION: Range = Range {
    row: 33,
    lo: 0,
    hi: 8,
};

pub const PROCEDURE: Range = Range {
    row: 34,
    lo: 0,
    hi: 2,
};

pub const RUNWAY: Range = Range {
    row: 35,
    lo: 1,
    hi: 36,
};

pub const RUNWAY_SIDE: Range = Range {
    row: 36,
    lo: 0,
    hi: 3,
};

pub const USER_ABORT_REASON: Range = Range {
    row: 37,
    lo: 0,
    hi: 12,
};

pub const PROVIDER_ABORT_REASON: Range = Range {
    row: 38,
    lo: 0,
    hi: 7,
};

pub const FORWARD_RESPONSE: Range = Range {
    row: 39,
    lo: 0,
    hi: 2,
};

pub const CM_ABORT_REASON: Range = Range {
    row: 40,
    lo: 0,
    hi: 9,
};

pub const CM_FORWARD_RESPONSE: Range = Range {
    row: 41,
    lo: 0,
    hi: 2,
};

pub const ABORT_DIAGNOSTIC: Range = Range {
    row: 42,
    lo: 0,
    hi: 5,
};

pub const AE_QUALIFIER: Range = Range {
    row: 43,
    lo: 0,
    hi: 255,
};

pub const AP_VERSION: Range = Range {
    row: 44,
    lo: 1,
    hi: 255,
};

pub const FIX_SIZE: Range = Range {
    row: 45,
    lo: 1,
    hi: 5,
};

pub const NAVAID_SIZE: Range = Range {
    row: 46,
    lo: 1,
    hi: 4,
};

pub const AIRPORT_SIZE: Range = Range {
    row: 47,
    lo: 4,
    hi: 4,
};

pub const PROCEDURE_SIZE: Range = Range {
    row: 48,
    lo: 1,
    hi: 20,
};

pub const TRANSITION_SIZE: Range = Range {
    row: 49,
    lo: 1,
    hi: 5,
};

pub const FLIGHT_SIZE: Range = Range {
    row: 50,
    lo: 2,
    hi: 8,
};

pub const ROUTE_SIZE: Range = Range {
    row: 51,
    lo: 2,
    hi: 7,
};

pub const CHANNEL_SIZE: Range = Range {
    row: 52,
    lo: 12,
    hi: 12,
};

pub const SELECTOR_SIZE: Range = Range {
    row: 53,
    lo: 10,
    hi: 11,
};

pub const ELEMENTS: Range = Range {
    row: 54,
    lo: 1,
    hi: 5,
};

pub const CLEARANCES: Range = Range {
    row: 55,
    lo: 1,
    hi: 2,
};

pub const LEGS: Range = Range {
    row: 56,
    lo: 1,
    hi: 128,
};

pub const APPLICATIONS: Range = Range {
    row: 57,
    lo: 1,
    hi: 256,
};

pub const RELEASE_REASON: Range = Range {
    row: 58,
    lo: 0,
    hi: 30,
};

const RANGES: [Range; 59] = [
    SIDE,
    YEAR,
    MONTH,
    DAY,
    HOURS,
    MINUTES,
    MSG_ID,
    LATITUDE_THOUSANDTHS,
    LATITUDE_DEGREES,
    HUNDREDTHS,
    LONGITUDE_THOUSANDTHS,
    LONGITUDE_DEGREES,
    DEGREES_0,
    DEGREES_1,
    SPEED_0,
    SPEED_1,
    SPEED_2,
    SPEED_3,
    SPEED_4,
    SPEED_5,
    SPEED_6,
    LEVEL_0,
    LEVEL_1,
    LEVEL_2,
    LEVEL_3,
    FREQUENCY_0,
    FREQUENCY_1,
    FREQUENCY_2,
    CODE_DIGIT,
    SPEED_TYPE,
    TRAFFIC_TYPE,
    CLEARANCE_TYPE,
    ERROR_INFORMATION,
    FACILITY_FUNCTION,
    PROCEDURE,
    RUNWAY,
    RUNWAY_SIDE,
    USER_ABORT_REASON,
    PROVIDER_ABORT_REASON,
    FORWARD_RESPONSE,
    CM_ABORT_REASON,
    CM_FORWARD_RESPONSE,
    ABORT_DIAGNOSTIC,
    AE_QUALIFIER,
    AP_VERSION,
    FIX_SIZE,
    NAVAID_SIZE,
    AIRPORT_SIZE,
    PROCEDURE_SIZE,
    TRANSITION_SIZE,
    FLIGHT_SIZE,
    ROUTE_SIZE,
    CHANNEL_SIZE,
    SELECTOR_SIZE,
    ELEMENTS,
    CLEARANCES,
    LEGS,
    APPLICATIONS,
    RELEASE_REASON,
];

// The range of a row, for what is told by its number: degrees, speeds, levels and frequencies. They are named one by one, and a field that is known takes its constant: a table that is indexed by a variable is laid on the stack.
pub fn range_at(row: usize) -> Range
    requires { row < 59 }
    ensures { Listed result × (result.row ≡ row) }
{
    match row {
        12 => DEGREES_0,
        13 => DEGREES_1,
        14 => SPEED_0,
        15 => SPEED_1,
        16 => SPEED_2,
        17 => SPEED_3,
        18 => SPEED_4,
        19 => SPEED_5,
        20 => SPEED_6,
        21 => LEVEL_0,
        22 => LEVEL_1,
        23 => LEVEL_2,
        24 => LEVEL_3,
        25 => FREQUENCY_0,
        26 => FREQUENCY_1,
        27 => FREQUENCY_2,
        _ => RANGES[row],
    }
}
