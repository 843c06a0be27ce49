// Logon requests and responses.
#![tactic(auto)]

ghost use Rattle.std.specs.Prelude.{List, ℕ, ◌<◌, ◌^◌};
ghost use Rattle.atn.specs.Messages.{etd, unsupplied, cm_logon_request, cm_logon_response};
ghost use Rattle.cursor.specs.Place.{Takes};
ghost use Rattle.cursor.specs.Formats.{Maybe};
ghost use Rattle.told_fields.specs.Does.{Does};
ghost use Rattle.cm_logon.specs.Etd.{etd_date, etd_time};

use cm_addresses::long_tsap;
use cm_applications::maybe_entries;
use cursor::place::presence;
use field_ranges::table::{AIRPORT_SIZE, DAY, FLIGHT_SIZE, HOURS, MINUTES, MONTH, YEAR};
use runs::At;
use told_fields::numbers::{number, refuse};
use told_fields::texts::{letters, maybe_letters};

fn etd_date(words: &mut [u64], at: At, s: &[u8]) -> At
    requires { at.n < 2 ^ 19 }
    ensures { Does 3 0 (Takes etd_date s.now) at result words.old words.new }
{
    let year = number(words, at, s, 0, cm_tags::ETD_YEAR, YEAR);
    let month = number(words, year, s, 0, cm_tags::ETD_MONTH, MONTH);
    number(words, month, s, 0, cm_tags::ETD_DAY, DAY)
}

fn etd_time(words: &mut [u64], at: At, s: &[u8]) -> At
    requires { at.n < 2 ^ 19 }
    ensures { Does 2 0 (Takes etd_time s.now) at result words.old words.new }
{
    let hours = number(words, at, s, 0, cm_tags::ETD_HOURS, HOURS);
    number(words, hours, s, 0, cm_tags::ETD_MINUTES, MINUTES)
}

// The estimated time of departure.
fn maybe_etd(words: &mut [u64], at: At, s: &[u8], has: u64) -> At
    requires { at.n < 2 ^ 18 }
    ensures { Does 5 0 (Maybe has etd s.now) at result words.old words.new }
{
    if has == 0 {
        return at;
    }
    let date = etd_date(words, at, s);
    etd_time(words, date, s)
}

// A facility designation, for which there is no reader.
fn maybe_facility(at: At, has: u64) -> At
    ensures { (s w : List ℕ) → Does 0 0 (Maybe has unsupplied s) at result w w }
{
    if has == 0 {
        return at;
    }
    refuse(at, 6, 0)
}

pub fn logon_request(words: &mut [u64], at: At, s: &[u8]) -> At
    requires { at.n < 2 ^ 16 }
    ensures { Does 3272 0 (Takes cm_logon_request s.now) at result words.old words.new }
{
    let p = presence(s, at.c, 6);
    let has = p.v;
    let c = p.c;
    let behind = At { n: at.n, c: c };
    let flight = letters(words, behind, s, 0, cm_tags::FLIGHT_ID, FLIGHT_SIZE);
    let tsap = long_tsap(words, flight, s);
    let ground = maybe_entries(
        words,
        tsap,
        s,
        has / 32 % 2,
        true,
        cm_tags::GROUND_INITIATED,
    );
    let air = maybe_entries(
        words,
        ground,
        s,
        has / 16 % 2,
        false,
        cm_tags::AIR_ONLY_INITIATED,
    );
    let facility = maybe_facility(air, has / 8 % 2);
    let from = maybe_letters(
        words,
        facility,
        s,
        has / 4 % 2,
        0,
        cm_tags::AIRPORT_DEPARTURE,
        AIRPORT_SIZE,
    );
    let to = maybe_letters(
        words,
        from,
        s,
        has / 2 % 2,
        0,
        cm_tags::AIRPORT_DESTINATION,
        AIRPORT_SIZE,
    );
    maybe_etd(words, to, s, has % 2)
}

pub fn logon_response(words: &mut [u64], at: At, s: &[u8]) -> At
    requires { at.n < 2 ^ 16 }
    ensures { Does 3072 0 (Takes cm_logon_response s.now) at result words.old words.new }
{
    let p = presence(s, at.c, 2);
    let has = p.v;
    let c = p.c;
    let behind = At { n: at.n, c: c };
    let air = maybe_entries(words, behind, s, has / 2 % 2, true, cm_tags::AIR_INITIATED);
    maybe_entries(
        words,
        air,
        s,
        has % 2,
        false,
        cm_tags::GROUND_ONLY_INITIATED,
    )
}
