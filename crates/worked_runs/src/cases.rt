// The runs. Behind each what its bits are.
use super::list::in_four;
use message_runs::Kind;

// "An empty input lists none."
pub fn empty() {
    in_four(b"downlink", Kind::Cpdlc, 0, b"");
    in_four(b"uplink", Kind::Cpdlc, 1, b"");
    in_four(b"cm aircraft", Kind::Cm, 0, b"");
    in_four(b"cm ground", Kind::Cm, 1, b"");
    in_four(b"acse", Kind::Acse, 0, b"");
}

// The WILCO frame has 74 bits, so that the last six of its ten bytes are padding.
pub fn wilco() {
    in_four(
        b"downlink",
        Kind::Cpdlc,
        0,
        b"\x64\xD0\x30\xF2\xA8\x2B\x42\x00\x00\x00",
    );
    // three of them, the padding all zeros, all ones, and mixed
    in_four(
        b"downlink",
        Kind::Cpdlc,
        0,
        b"\x64\xD0\x30\xF2\xA8\x2B\x42\x00\x00\x00\x64\xD0\x30\xF2\xA8\x2B\x42\x00\x00\x3F\x64\xD0\x30\xF2\xA8\x2B\x42\x00\x00\x15",
    );
    // the second ends after nine bytes: cut
    in_four(
        b"downlink",
        Kind::Cpdlc,
        0,
        b"\x64\xD0\x30\xF2\xA8\x2B\x42\x00\x00\x00\x64\xD0\x30\xF2\xA8\x2B\x42\x00\x00",
    );
}

// 0 101 0 01: a forward response, seven bits.
pub fn uplink() {
    in_four(b"uplink", Kind::Cpdlc, 1, b"\x52\x53\x52");
    in_four(b"uplink", Kind::Cpdlc, 1, b"\x52\x40"); // 0 100: a forward message that ends early: cut
}

pub fn cm() {
    in_four(b"cm aircraft", Kind::Cm, 0, b"\x40\x45\x40"); // 0 10 0 0000, 0 10 0 0101: aborts, reasons 0, 5 and 0, eight bits each
    in_four(b"cm aircraft", Kind::Cm, 0, b"\x40\x4A\x40"); // the second with reason 10: mark 1
    in_four(b"cm aircraft", Kind::Cm, 0, b"\x40\x40\x40\x80"); // the last extended: refused
    in_four(b"cm ground", Kind::Cm, 1, b"\x50\x57\x20"); // 0 101 00: forward responses, six bits; then 0 010: a contact request, not supplied
}

pub fn acse() {
    in_four(b"acse", Kind::Acse, 0, b"\x20\x23\x40"); // 0 010 0 0: release requests without a reason, six bits; 0 100 0 0 0 0: an abort, eight bits
    in_four(b"acse", Kind::Acse, 0, b"\x00"); // 0 000: an association request, whose body is not read: mark 3
}
