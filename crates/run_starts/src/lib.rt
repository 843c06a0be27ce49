// Where the messages of a run start: clean messages of one kind, back to back, each padded to a byte with bits that are not looked at.
#![tactic(auto)]

ghost use Rattle.std.specs.Prelude.{◌≡◌, ◌≤◌, length};
ghost use Rattle.message_runs.specs.Runs.{format_of, cut, list_starts};
ghost use Rattle.run_starts.specs.Walked.{Walked};

use answers::LONGEST_FRAME;
use clean_reaches::clean_reach;
use lent_tables::tables_fit;
use message_runs::{Kind, Refusal, Starts};

// direction 0 is the aircraft's message, 1 the ground's. The starts are bytes of the run, the first of them 0. A run has at most the bytes of the longest frame.
pub fn list_starts(
    kind: Kind,
    direction: u64,
    down: &[u8],
    up: &[u8],
    run: &[u8],
    starts: &mut [u64],
) -> Result<Starts, Refusal>
    ensures { (result, starts.new) ≡ list_starts kind direction down.now up.now run.now starts.old }
{
    if LONGEST_FRAME < run.len() {
        return Err(Refusal::TooLong);
    }
    if !tables_fit(down, up) {
        return Err(Refusal::UnfitTables);
    }
    if 1 < direction {
        return Err(Refusal::UnknownDirection);
    }
    // lent no numbers, so that a refusal leaves them
    let found = walk(kind, direction, down, up, run, &mut starts[..0]);
    if starts.len() < found.count {
        return Err(Refusal::TooFewNumbers { need: found.count });
    }
    walk(kind, direction, down, up, run, starts);
    if found.until < run.len() {
        return Ok(Starts::UpTo {
            count: found.count,
            byte: found.until,
        });
    }
    Ok(Starts::All { count: found.count })
}

// How many clean messages follow one another, and the byte up to which they go.
#[derive(Clone, Copy)]
struct Found {
    count: usize,
    until: usize,
}

// From message to message. A start is written where there is room for it, and counted in any case.
fn walk(kind: Kind, direction: u64, down: &[u8], up: &[u8], run: &[u8], starts: &mut [u64]) -> Found
    requires { (length run.now ≤ 65536) × (1 ≤ length down.now) × (length down.now ≤ 256) × (1 ≤ length up.now) × (length up.now ≤ 256) × (direction ≤ 1) }
    ensures { Walked (cut (format_of kind direction down.now up.now) run.now) result starts.old starts.new }
{
    let mut count = 0;
    let mut at = 0;
    // no range: where the next message starts is known behind this one
    while at < run.len() {
        let reach = clean_reach(kind, direction, down, up, &run[at..]);
        let Some(bits) = reach else {
            return Found {
                count: count,
                until: at,
            };
        };
        if count < starts.len() {
            starts[count] = at as u64;
        }
        count += 1;
        at += (bits + 7) / 8;
    }
    Found {
        count: count,
        until: at,
    }
}
