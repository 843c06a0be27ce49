// A case, lent four numbers, with the tables of `apdu-lines`.
use super::line::print;
use message_runs::{Kind, Refusal, Starts};
use run_starts::list_starts;

pub fn in_four(name: &[u8], kind: Kind, direction: u64, run: &[u8]) {
    let mut starts = [7u64; 4];
    let answer = list(kind, direction, run, &mut starts);
    print(name, run, answer, &starts);
}

// 128 downlink and 256 uplink entries, all 0.
pub fn list(kind: Kind, direction: u64, run: &[u8], starts: &mut [u64]) -> Result<Starts, Refusal> {
    let down = [0u8; 128];
    let up = [0u8; 256];
    list_starts(kind, direction, &down, &up, run, starts)
}
