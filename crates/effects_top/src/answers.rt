//! What the program answers: the status of the process, and the line on standard error.

ghost use Rattle.std.specs.Prelude.{◌≡◌, ◌++◌, codes};
ghost use Rattle.std.specs.Fmt.{decimal};
ghost use Rattle.effects_top.specs.Output.{Wrote};
ghost use Rattle.effects_top.specs.Answers.{refusal_status, kind_word, place_line, refusal_line, end_status, end_line};

use crate::output::{Piece, write_all, write_pieces};
use fx_base::{LimitKind, Place, Refusal, Sink, Status, Written};
use rv_model::RunEnd;

/// The status of a refusal.
pub fn refusal_status(refusal: Refusal) -> Status
    ensures { result.0 ≡ refusal_status refusal }
{
    Status(match refusal {
        Refusal::Usage => 64,
        Refusal::Syntax(_) | Refusal::Name(_) => 65,
        Refusal::IllTyped(_) => 66,
        Refusal::Limit { .. } => 67,
        Refusal::File => 68,
        Refusal::Memory => 70,
    })
}

fn kind_word(kind: LimitKind) -> &'static [u8]
    ensures { result.now ≡ kind_word kind }
{
    match kind {
        LimitKind::Source => b"source",
        LimitKind::Depth => b"depth",
        LimitKind::TypeSize => b"type",
        LimitKind::Slots => b"slots",
        LimitKind::Free => b"free",
        LimitKind::Code => b"code",
    }
}

/// The status of the end of a run.
pub fn end_status(end: &RunEnd) -> Status
    ensures { result.0 ≡ end_status end.now }
{
    Status(match end {
        RunEnd::Exited(status) => *status,
        RunEnd::Uncaught(_) => 2,
        RunEnd::HeapFull { .. } => 71,
        RunEnd::StackFull { .. } | RunEnd::CallsFull { .. } => 72,
        RunEnd::OutputFull { .. } => 73,
        RunEnd::BudgetSpent { .. } => 74,
        RunEnd::Deadlock => 75,
        RunEnd::Broken => 78,
    })
}

// A line that names a place: its head, the line and the column.
fn tell_place<S: Sink>(sink: &mut S, head: &[u8], place: Place) -> Written
    ensures { Wrote (S.held sink.old) (S.held sink.new) (S.faults sink.old) (S.faults sink.new) (place_line head.now place.line place.column) result }
{
    write_pieces(
        sink,
        &[
            Piece::Text(head),
            Piece::Number(place.line as u64),
            Piece::Text(b":"),
            Piece::Number(place.column as u64),
            Piece::Text(b"\n"),
        ],
    )
}

/// Writes the line of a refusal.
pub fn tell_refusal<S: Sink>(sink: &mut S, refusal: Refusal) -> Written
    ensures { Wrote (S.held sink.old) (S.held sink.new) (S.faults sink.old) (S.faults sink.new) (refusal_line refusal) result }
{
    match refusal {
        Refusal::Usage => write_all(sink, b"error: usage\n"),
        Refusal::File => write_all(sink, b"error: file\n"),
        Refusal::Syntax(place) => tell_place(sink, b"error: syntax at ", place),
        Refusal::Name(place) => tell_place(sink, b"error: name at ", place),
        Refusal::IllTyped(place) => tell_place(sink, b"error: type at ", place),
        Refusal::Limit { kind, found, bound } => tell_limit(sink, kind, found, bound),
        Refusal::Memory => write_all(sink, b"error: memory\n"),
    }
}

fn tell_limit<S: Sink>(sink: &mut S, kind: LimitKind, found: u64, bound: u64) -> Written
    ensures { Wrote (S.held sink.old) (S.held sink.new) (S.faults sink.old) (S.faults sink.new) (refusal_line (Refusal.Limit kind found bound)) result }
{
    write_pieces(
        sink,
        &[
            Piece::Text(b"error: limit "),
            Piece::Text(kind_word(kind)),
            Piece::Text(b" "),
            Piece::Number(found),
            Piece::Text(b" "),
            Piece::Number(bound),
            Piece::Text(b"\n"),
        ],
    )
}

// A line of numbers behind a head.
fn tell_two<S: Sink>(sink: &mut S, head: &[u8], first: u64, second: u64) -> Written
    ensures { Wrote (S.held sink.old) (S.held sink.new) (S.faults sink.old) (S.faults sink.new) (head.now ++ (decimal first ++ (codes " " ++ (decimal second ++ codes "\n")))) result }
{
    write_pieces(
        sink,
        &[
            Piece::Text(head),
            Piece::Number(first),
            Piece::Text(b" "),
            Piece::Number(second),
            Piece::Text(b"\n"),
        ],
    )
}

fn tell_three<S: Sink>(sink: &mut S, head: &[u8], first: u64, second: u64, third: u64) -> Written
    ensures { Wrote (S.held sink.old) (S.held sink.new) (S.faults sink.old) (S.faults sink.new) (head.now ++ (decimal first ++ (codes " " ++ (decimal second ++ (codes " " ++ (decimal third ++ codes "\n")))))) result }
{
    write_pieces(
        sink,
        &[
            Piece::Text(head),
            Piece::Number(first),
            Piece::Text(b" "),
            Piece::Number(second),
            Piece::Text(b" "),
            Piece::Number(third),
            Piece::Text(b"\n"),
        ],
    )
}

fn tell_text<S: Sink>(sink: &mut S, text: &[u8]) -> Written
    ensures { Wrote (S.held sink.old) (S.held sink.new) (S.faults sink.old) (S.faults sink.new) (end_line (RunEnd.Uncaught text.now)) result }
{
    write_pieces(
        sink,
        &[
            Piece::Text(b"Fatal error: exception "),
            Piece::Text(text),
            Piece::Text(b"\n"),
        ],
    )
}

fn tell_active<S: Sink>(sink: &mut S, active: u32) -> Written
    ensures { Wrote (S.held sink.old) (S.held sink.new) (S.faults sink.old) (S.faults sink.new) (end_line (RunEnd.CallsFull active)) result }
{
    write_pieces(
        sink,
        &[
            Piece::Text(b"error: calls full "),
            Piece::Number(active as u64),
            Piece::Text(b"\n"),
        ],
    )
}

/// Writes the line of the end of a run; nothing after an exit.
pub fn tell_end<S: Sink>(sink: &mut S, end: &RunEnd) -> Written
    ensures { Wrote (S.held sink.old) (S.held sink.new) (S.faults sink.old) (S.faults sink.new) (end_line end.now) result }
{
    match end {
        RunEnd::Exited(_) => write_pieces(sink, &[]),
        RunEnd::Uncaught(text) => tell_text(sink, text.as_slice()),
        RunEnd::HeapFull { used, asked, size } => {
            tell_three(sink, b"error: heap full ", *used, *asked, *size)
        }
        RunEnd::StackFull { need, size } => tell_two(sink, b"error: stack full ", *need, *size),
        RunEnd::CallsFull { active } => tell_active(sink, *active),
        RunEnd::OutputFull { used, asked, size } => {
            tell_three(sink, b"error: log full ", *used, *asked, *size)
        }
        RunEnd::BudgetSpent { hart, count } => {
            tell_two(sink, b"error: budget spent ", *hart as u64, *count)
        }
        RunEnd::Deadlock => write_all(sink, b"error: deadlock\n"),
        RunEnd::Broken => write_all(sink, b"error: broken\n"),
    }
}
