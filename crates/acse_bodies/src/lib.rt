// Release and abort. Where the frame ends in them, what was read before stays.
#![tactic(auto)]

ghost use Rattle.std.specs.Prelude.{◌≡◌, cond, ◌<◌, eqb};
ghost use Rattle.atn.specs.Tags.{release_request_reason, release_response_reason};
ghost use Rattle.acse_bodies.specs.Bodies.{release_body, abort_body, unread_body, alone_body, body_recs, Chosen};
ghost use Rattle.acse_reasons.specs.SoFar.{Keeps};

use acse_reasons::few::few;
use acse_reasons::notes::{Note, note_at};
use acse_reasons::reasons::{reason, release_reason};
use acse_reasons::tags;
use cursor::place::{Cursor, Got, mark};
use field_ranges::table::{ABORT_DIAGNOSTIC, SIDE};

// Two notes at most, and the place behind what was read for them.
#[derive(Clone, Copy)]
pub struct Body {
    pub first: Note,
    pub next: Note,
    pub c: Cursor,
}

// Nothing is told: marks.
pub fn unread(c: Cursor, marks: u64) -> Body
    ensures { result ≡ unread_body c marks }
{
    let d = mark(c, marks);
    Body {
        first: Note::Untold,
        next: Note::Untold,
        c: d,
    }
}

fn alone(n: Got<Note>) -> Body
    ensures { result ≡ alone_body n }
{
    let first = n.v;
    let c = n.c;
    Body {
        first: first,
        next: Note::Untold,
        c: c,
    }
}

// A reason, or its absence: value 0 and second number 2. An extended release is not read.
fn read_release(s: &[u8], c: Cursor, tag: u64) -> Body
    ensures { Keeps (release_body tag) s.now c result.c (body_recs result) }
{
    let extension = few(s, c, 1);
    if extension.v != 0 {
        return unread(extension.c, 2);
    }
    let presence = few(s, extension.c, 1);
    if presence.v == 0 {
        let absent = note_at(presence.c, tag, 0, 2, presence.c.at);
        return alone(absent);
    }
    let given = release_reason(s, presence.c, tag);
    alone(given)
}

// The source, whose range is that of a side, and a diagnostic where its presence bit is set. An extended abort is not read.
fn read_abort(s: &[u8], c: Cursor) -> Body
    ensures { Keeps abort_body s.now c result.c (body_recs result) }
{
    let extension = few(s, c, 1);
    if extension.v != 0 {
        return unread(extension.c, 2);
    }
    let presence = few(s, extension.c, 1);
    let source = reason(s, presence.c, SIDE.hi, tags::ABORT_SOURCE);
    if presence.v == 0 {
        return alone(source);
    }
    let diagnostic = reason(s, source.c, ABORT_DIAGNOSTIC.hi, tags::ABORT_DIAGNOSTIC);
    let first = source.v;
    let next = diagnostic.v;
    let d = diagnostic.c;
    Body {
        first: first,
        next: next,
        c: d,
    }
}

// The tag of the reason of a release: a request's, which is 2, or a response's.
fn release_tag(pdu: u64) -> u64
    ensures { result ≡ cond (eqb pdu 2) release_request_reason release_response_reason }
{
    if pdu == 2 {
        return tags::RELEASE_REQUEST_REASON;
    }
    tags::RELEASE_RESPONSE_REASON
}

// The body of each of the five messages. Those of an association request and its response, 0 and 1, are not read: mark 3. A release is read in one place: what is called once is compiled into it.
pub fn read_body(s: &[u8], c: Cursor, pdu: u64) -> Body
    requires { pdu < 5 }
    ensures { Chosen s.now c pdu result }
{
    if pdu < 2 {
        return unread(c, 4);
    }
    if pdu == 4 {
        return read_abort(s, c);
    }
    read_release(s, c, release_tag(pdu))
}
