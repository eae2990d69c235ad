//! Writing to a sink until all is written or a write fails.

ghost use Rattle.std.specs.Prelude.{◌≡◌, ℕ, ◌≤◌, length};
ghost use Rattle.effects_top.specs.Output.{Wrote, piece_bytes, joined};

use fx_base::{Sink, Written};
use itoa::Buffer;

/// A piece of a line.
#[derive(Clone, Copy)]
pub enum Piece<'a> {
    Text(&'a [u8]),
    /// A number in decimal.
    Number(u64),
}

/// Writes all bytes. Each write is handed all that aren't written yet.
pub fn write_all<S: Sink>(sink: &mut S, bytes: &[u8]) -> Written
    ensures { Wrote (S.held sink.old) (S.held sink.new) (S.faults sink.old) (S.faults sink.new) bytes.now result }
{
    let mut written = 0;
    while written < bytes.len() {
        let Ok(count) = sink.write(&bytes[written..]) else {
            return Written::Failed;
        };
        written += count;
    }
    match sink.flush() {
        Ok(()) => Written::Whole,
        Err(_) => Written::Failed,
    }
}

fn write_piece<S: Sink>(sink: &mut S, piece: &Piece<'_>) -> Written
    ensures { Wrote (S.held sink.old) (S.held sink.new) (S.faults sink.old) (S.faults sink.new) (piece_bytes piece.now) result }
{
    match piece {
        Piece::Text(text) => write_all(sink, text),
        Piece::Number(number) => write_all(sink, Buffer::new().format(*number).as_bytes()),
    }
}

/// Writes the pieces one after another, until one fails.
pub fn write_pieces<S: Sink>(sink: &mut S, pieces: &[Piece<'_>]) -> Written
    ensures { Wrote (S.held sink.old) (S.held sink.new) (S.faults sink.old) (S.faults sink.new) (joined pieces.now) result }
{
    let Some((first, rest)) = pieces.split_first() else {
        return Written::Whole;
    };
    match write_piece(sink, first) {
        Written::Whole => write_pieces(sink, rest),
        Written::Failed => Written::Failed,
    }
}
