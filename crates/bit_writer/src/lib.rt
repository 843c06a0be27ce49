// The lowest layer of the writer: bits put into lent bytes. A bit's place counts from the top of the
// first byte. What lies behind the last byte is left out, so that a slice may be short, or empty.
#![tactic(auto)]

mod byte; // byte.rt: bits put into one byte
pub mod number; // number.rt: a number put as so many bits
pub mod span; // span.rt: bits of other bytes put
