// The messages of the two sides: an extension bit, an index, and the message that it names.
#![tactic(auto)]

ghost use Rattle.std.specs.Prelude.{◌<◌, ◌^◌};
ghost use Rattle.atn.specs.Format.{choice};
ghost use Rattle.atn.specs.Tags.{cm_ground_pdu, cm_aircraft_pdu};
ghost use Rattle.cursor.specs.Place.{Takes};
ghost use Rattle.told_fields.specs.Does.{Does, Alternative};
ghost use Rattle.cm_pdus.specs.Pdus.{ground_pdus, aircraft_pdus, pdu_of};

use cm_logon::{logon_request, logon_response};
use cursor::place::{bits, mark};
use field_ranges::table::{CM_ABORT_REASON, CM_FORWARD_RESPONSE, SIDE};
use records::emit;
use runs::At;
use told_fields::numbers::{number, refuse};
use told_fields::reasons::reason;

// There is no reader for a contact request.
fn ground_message(words: &mut [u64], at: At, s: &[u8], index: u64) -> At
    requires { at.n < 2 ^ 16 }
    ensures { Does 3272 0 (Alternative ground_pdus index s.now) at result words.old words.new }
{
    if index < 2 {
        return logon_response(words, at, s);
    }
    if index == 2 {
        return refuse(at, 6, 0);
    }
    if index == 3 {
        return logon_request(words, at, s);
    }
    if index == 4 {
        return reason(words, at, s, 0, cm_tags::CM_ABORT_REASON, CM_ABORT_REASON);
    }
    if index == 5 {
        return number(
            words,
            at,
            s,
            0,
            cm_tags::CM_FORWARD_RESPONSE,
            CM_FORWARD_RESPONSE,
        );
    }
    refuse(at, 5, 1)
}

fn aircraft_message(words: &mut [u64], at: At, s: &[u8], index: u64) -> At
    requires { at.n < 2 ^ 16 }
    ensures { Does 3272 0 (Alternative aircraft_pdus index s.now) at result words.old words.new }
{
    if index == 0 {
        return logon_request(words, at, s);
    }
    if index == 1 {
        return number(words, at, s, 0, cm_tags::CONTACT_RESPONSE, SIDE);
    }
    if index == 2 {
        return reason(words, at, s, 0, cm_tags::CM_ABORT_REASON, CM_ABORT_REASON);
    }
    refuse(at, 5, 1)
}

fn ground_pdu(words: &mut [u64], at: At, s: &[u8]) -> At
    requires { at.n < 2 ^ 15 }
    ensures { Does 3273 0 (Takes (choice cm_ground_pdu ground_pdus) s.now) at result words.old words.new }
{
    let index = bits(s, at.c, 3);
    let c = index.c;
    let n = emit(words, at.n, cm_tags::CM_GROUND_PDU, 0, index.v, 0, at.c.at);
    let behind = At { n: n, c: c };
    ground_message(words, behind, s, index.v)
}

fn aircraft_pdu(words: &mut [u64], at: At, s: &[u8]) -> At
    requires { at.n < 2 ^ 15 }
    ensures { Does 3273 0 (Takes (choice cm_aircraft_pdu aircraft_pdus) s.now) at result words.old words.new }
{
    let index = bits(s, at.c, 2);
    let c = index.c;
    let n = emit(
        words,
        at.n,
        cm_tags::CM_AIRCRAFT_PDU,
        0,
        index.v,
        0,
        at.c.at,
    );
    let behind = At { n: n, c: c };
    aircraft_message(words, behind, s, index.v)
}

// A set extension bit is refused.
pub fn pdu(words: &mut [u64], at: At, s: &[u8], ground: bool) -> At
    requires { at.n < 2 ^ 15 }
    ensures { Does 3273 0 (Takes (pdu_of ground) s.now) at result words.old words.new }
{
    let extension = bits(s, at.c, 1);
    let c = extension.c;
    if extension.v != 0 {
        let marked = mark(c, 2);
        let behind = At { n: at.n, c: marked };
        return refuse(behind, 5, 0);
    }
    let behind = At { n: at.n, c: c };
    if ground {
        return ground_pdu(words, behind, s);
    }
    aircraft_pdu(words, behind, s)
}
