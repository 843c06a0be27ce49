// The tables: four words to a node.

// A number from -60 to 7000; a text of one to four characters that may be absent; a part that is not read; four bits; and behind an extension bit a choice of a name, an alternative without a reader and one that is not listed.
pub const SHOP: [u64; 44] = [
    4,
    1,
    5,
    0,
    0,
    1001,
    18446744073709551556,
    7000,
    6,
    6,
    0,
    0,
    7,
    1003,
    0,
    0,
    3,
    1004,
    4,
    0,
    10,
    7,
    1005,
    0,
    2,
    1002,
    1,
    4,
    5,
    1006,
    8,
    3,
    1,
    1007,
    2,
    0,
    8,
    0,
    0,
    0,
    9,
    0,
    0,
    0,
];

// Document 01's procedure: a name, a text, and a text that may be absent.
pub const PROCEDURE: [u64; 20] = [
    4, 1, 3, 0, 1, 65, 2, 0, 2, 66, 1, 20, 6, 4, 0, 0, 2, 67, 1, 5,
];

// Each node names the next one, to a number of no bits: depths of 16 and 17.
pub const SIXTEEN: [u64; 64] = [
    12, 1, 0, 0, 12, 2, 0, 0, 12, 3, 0, 0, 12, 4, 0, 0, 12, 5, 0, 0, 12, 6, 0, 0, 12, 7, 0, 0, 12,
    8, 0, 0, 12, 9, 0, 0, 12, 10, 0, 0, 12, 11, 0, 0, 12, 12, 0, 0, 12, 13, 0, 0, 12, 14, 0, 0, 12,
    15, 0, 0, 0, 7, 4, 4,
];

pub const SEVENTEEN: [u64; 68] = [
    12, 1, 0, 0, 12, 2, 0, 0, 12, 3, 0, 0, 12, 4, 0, 0, 12, 5, 0, 0, 12, 6, 0, 0, 12, 7, 0, 0, 12,
    8, 0, 0, 12, 9, 0, 0, 12, 10, 0, 0, 12, 11, 0, 0, 12, 12, 0, 0, 12, 13, 0, 0, 12, 14, 0, 0, 12,
    15, 0, 0, 12, 16, 0, 0, 0, 7, 4, 4,
];
