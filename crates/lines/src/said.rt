// What the line programs say of an answer. Reach, mark sum and number of records, or number and reach.
use line_output::output::Sink;

pub fn accepted(output: &mut Sink, cut: bool, reach: usize, marks: u64, count: usize) {
    output.put(if cut { b"ok cut " } else { b"ok whole " });
    output.put_number(reach as u64);
    labelled(output, b" ", marks);
    labelled(output, b" ", count as u64);
}

pub fn refused(output: &mut Sink, number: u64, reach: usize) {
    labelled(output, b"no ", number);
    labelled(output, b" ", reach as u64);
}

pub fn labelled(output: &mut Sink, label: &[u8], n: u64) {
    output.put(label);
    output.put_number(n);
}
