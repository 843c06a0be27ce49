// The frames. Behind each what its bits are.
use super::entries::{acse, cm_from_aircraft, cm_from_ground};

// The empty frame, every entry.
pub fn empty() {
    cm_from_ground(&[]);
    cm_from_aircraft(&[]);
    acse(&[]);
}

pub fn acse_messages() {
    acse(&[0x80]); // 1: an extension
    acse(&[0x00]); // 0 000: an association request, whose body is not read
    acse(&[0x50]); // 0 101: no such message
    acse(&[0x24]); // 0 010 0 1 0, and four bits short: a release request whose reason passes the end
}

pub fn cm_messages() {
    cm_from_aircraft(&[0x40]); // 0 10 0 0000: abort, reason 0
    cm_from_aircraft(&[0x4A]); // 0 10 0 1010: abort, reason 10
    cm_from_aircraft(&[0x80]); // 1: an extension
    cm_from_ground(&[0x80]); // 1: an extension
    cm_from_ground(&[0x20]); // 0 010: a contact request, whose facility designation is not supplied
}
