// What a reading says before its records are written, and how two readings of one frame go together.
#![tactic(auto)]

ghost use Rattle.std.specs.Prelude.{◌≡◌, ℕ, ◌+◌, ◌*◌, max, ◌≤◌};
ghost use Rattle.atn.specs.Entries.{Reply, after_out, after_bad};
ghost use Rattle.verdicts.specs.Verdicts.{verdict_of};

// `why` is 0 for whole, 7 for cut, and else document 01's number, with 16 times the bits lacked where it ran out, as the cursor has it; behind a refusal marks and count are 0.
#[derive(Clone, Copy)]
pub struct Verdict {
    pub why: u64,
    pub reach: usize,
    pub marks: u64,
    pub count: usize,
}

fn larger(a: usize, b: usize) -> usize
    ensures { result ≡ max a b }
{
    if a < b {
        return b;
    }
    a
}

// Behind a downlink that was badly formed, at p, the uplink's answer stands.
pub fn after_bad(p: usize, v: Verdict) -> Verdict
    ensures { ((u : Reply) → v ≡ verdict_of u → result ≡ verdict_of (after_bad p u)) × (result.count ≤ v.count) }
{
    let reach = larger(p, v.reach);
    Verdict {
        why: v.why,
        reach: reach,
        marks: v.marks,
        count: v.count,
    }
}

// Behind a downlink that ran out, at p and for this reason, an accepted uplink is cut, and any other ran out too. Where both ran out the smaller number of bits stands.
pub fn after_out(p: usize, why: u64, v: Verdict) -> Verdict
    ensures { ((k : ℕ) (u : Reply) → why ≡ 4 + 16 * k → v ≡ verdict_of u → result ≡ verdict_of (after_out p k u)) × (result.count ≤ v.count) }
{
    let reach = larger(p, v.reach);
    if v.why == 0 {
        return Verdict {
            why: 7,
            reach: reach,
            marks: v.marks,
            count: v.count,
        };
    }
    if v.why == 7 {
        return Verdict {
            why: 7,
            reach: reach,
            marks: v.marks,
            count: v.count,
        };
    }
    if v.why % 16 == 4 {
        if v.why < why {
            return Verdict {
                why: v.why,
                reach: reach,
                marks: 0,
                count: 0,
            };
        }
    }
    Verdict {
        why: why,
        reach: reach,
        marks: 0,
        count: 0,
    }
}
