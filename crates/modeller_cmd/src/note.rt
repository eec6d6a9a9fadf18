// The one line that says why a run has not done its work.
ghost use Rattle.std.specs.Prelude.{◌≡◌, ◌≤◌, length};
ghost use Rattle.modeller_cmd.specs.declared.line.TheConstants.{LINE_LIMIT};
ghost use Rattle.modeller_cmd.specs.Notes.{bad_text_line, fault_line, line_of, refusal_line};

use crate::bad_text::BadText;
use crate::line::Line;
use crate::names::{
    ply_reason_name, script_reason_name, solid_reason_name, text_reason_name, word_reason_name,
};
use crate::refusal::Refusal;
use crate::stop::Stop;

/// The line that is written for a stop.
pub fn note_of(stop: Stop) -> Line
    ensures { result ≡ line_of stop }
{
    match stop {
        Stop::Refused(refusal) => refusal_note(refusal),
        Stop::ReadFault => whole(b"modeller: read fault\n"),
        Stop::WriteFault => whole(b"modeller: write fault\n"),
        Stop::NoMemory => whole(b"modeller: no memory\n"),
    }
}

// The line that is written for a refusal.
fn refusal_note(refusal: Refusal) -> Line
    ensures { result ≡ refusal_line refusal }
{
    match refusal {
        Refusal::Words(fault) => placed(b"word", fault.at, word_reason_name(fault.reason)),
        Refusal::TooLong => whole(b"modeller: input too long\n"),
        Refusal::Text(bad) => bad_text_note(bad),
        Refusal::Script(fault) => placed(
            b"script line",
            fault.line,
            script_reason_name(fault.reason),
        ),
    }
}

// The line that is written for a text that is refused.
fn bad_text_note(bad: BadText) -> Line
    ensures { result ≡ bad_text_line bad }
{
    match bad {
        BadText::Model(fault) => placed(b"line", fault.line, text_reason_name(fault.reason)),
        BadText::Solid(fault) => placed(b"line", fault.line, solid_reason_name(fault.reason)),
        BadText::Mesh(fault) => placed(b"line", fault.line, ply_reason_name(fault.reason)),
    }
}

// The line of this text.
fn whole(text: &[u8]) -> Line
    requires { length text.now ≤ LINE_LIMIT }
    ensures { result ≡ text.now }
{
    let mut line = Line::new();
    line.push(text);
    line
}

// The line of what is wrong in the place of this number, as in a word or a line.
fn placed(place: &[u8], number: u32, reason: &[u8]) -> Line
    requires place { length place.now ≤ 11 }
    requires reason { length reason.now ≤ 16 }
    ensures { result ≡ fault_line place.now number reason.now }
{
    let mut line = Line::new();
    line.push(b"modeller: ");
    line.push(place);
    line.push(b" ");
    line.push_number(u64::from(number));
    line.push(b": ");
    line.push(reason);
    line.push(b"\n");
    line
}
