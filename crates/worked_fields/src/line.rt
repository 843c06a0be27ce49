// A case's line.
use cursor::place::Got;

pub fn print(kind: &[u8], frame: &[u8], g: Got<u64>) {
    let c = g.c;
    io::write_all(1, kind);
    octets(frame);
    if c.why == 0 {
        io::write_all(1, b": ");
        io::print_decimal(1, g.v);
    } else {
        io::write_all(1, b": -");
    }
    number(b" why ", c.why % 16);
    number(b" marks ", c.marks);
    number(b" reach ", c.at as u64);
    io::write_all(1, b"\n");
}

fn number(label: &[u8], n: u64) {
    io::write_all(1, label);
    io::print_decimal(1, n);
}

fn octets(frame: &[u8]) {
    for &octet in frame {
        io::write_all(1, b" ");
        io::print_hex(1, u64::from(octet), 2);
    }
}
