// The lowest layer of the reader: numbers out of the bits of a frame. A bit's place counts from the
// top of the first octet.
#![tactic(auto)]

mod cut; // cut.rt: bits cut out of a number
pub mod number; // number.rt: the number that some bits spell
pub mod octets; // octets.rt: octets as one number
pub mod room; // room.rt: whether the bits to read are there
pub mod units; // units.rt: octets and bits, and how the first become the second
pub mod width; // width.rt: how many bits a number or an index takes
