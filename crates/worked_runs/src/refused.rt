// What is refused, in the order of the refusals, and the longest run.
use super::line::print;
use super::list::list;
use message_runs::Kind;
use run_starts::list_starts;

// 65,536 aborts of context management, then one more; nothing else is looked at then.
pub fn too_long() {
    let run = [0x40u8; 65537];
    let mut starts = [7u64; 65536];
    let answer = list(Kind::Cm, 0, &run[..65536], &mut starts);
    print(
        b"cm aircraft, 65536 bytes of",
        &run[..1],
        answer,
        &starts[65532..],
    );
    let mut none = [7u64; 4];
    let longer = list_starts(Kind::Cm, 2, &[], &[], &run, &mut none);
    print(
        b"cm aircraft, no tables, direction 2, 65537 bytes of",
        &run[..1],
        longer,
        &none,
    );
}

pub fn tables() {
    let run = [0x40u8; 1];
    let one = [0u8; 1];
    let many = [0u8; 257];
    let mut starts = [7u64; 4];
    let empty = list_starts(Kind::Cm, 2, &one, &[], &run, &mut starts);
    print(
        b"cm aircraft, no up table, direction 2,",
        &run,
        empty,
        &starts,
    );
    let long = list_starts(Kind::Acse, 0, &many, &one, &run, &mut starts);
    print(b"acse, down table of 257,", &run, long, &starts);
}

pub fn direction() {
    let run = [0x40u8; 1];
    let mut starts = [7u64; 4];
    let answer = list(Kind::Acse, 2, &run, &mut starts);
    print(b"acse, direction 2,", &run, answer, &starts);
}

// Room for two starts: three aborts need one more, and so do three with a message behind them that is not clean.
pub fn no_room() {
    let run = [0x40u8, 0x40, 0x40, 0x4A];
    let mut starts = [7u64; 2];
    let clean = list(Kind::Cm, 0, &run[..3], &mut starts);
    print(b"cm aircraft", &run[..3], clean, &starts);
    let more = list(Kind::Cm, 0, &run, &mut starts);
    print(b"cm aircraft", &run, more, &starts);
    let two = list(Kind::Cm, 0, &run[..2], &mut starts);
    print(b"cm aircraft", &run[..2], two, &starts);
}
