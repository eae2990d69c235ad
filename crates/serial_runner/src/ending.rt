//! The end of a run, and its printed bytes.

ghost use Rattle.std.specs.Prelude.{◌≡◌, ◌<◌, ◌≤◌, ◌+◌, ◌*◌, ◌/◌, ◌↔◌, IsTrue, length, vec_len, take};
ghost use Rattle.rv_model.specs.Machine.{words_of};
ghost use Rattle.rv_model.specs.Layout as layout;
ghost use Rattle.serial_runner.specs.Ending.{unfinished, ending, HasRoom};
ghost use Rattle.rv_model.specs.declared.layout.TheConstants.{LOG_WORD as LOG_START};

use rv_model::{
    CURSOR_WORD, DETAIL_WORD, END_WORD, Hart, Image, Items, LOG_WORD, Part, RunEnd, TEXT_WORD,
};
use rv_step::part_of;

/// Whether the words of an image have room for those of fixed meaning and the log.
pub fn has_room(image: &Image) -> bool
    ensures { IsTrue result ↔ HasRoom image.now }
{
    LOG_WORD + image.settings.out.div_ceil(8) <= image.size
}

/// Whether the end word, its first detail and the log's cursor are in their ranges.
pub fn is_sound(image: &Image, words: &[u64]) -> bool
    requires { LOG_START ≤ length words.now }
    ensures { IsTrue result ↔ layout.IsSound image.now.settings.out (words_of words.now) }
{
    let kind = words[END_WORD as usize];
    let most = match kind {
        1 | 5 => 255,
        2 => 1024,
        _ => u64::MAX,
    };
    kind <= 6
        && words[DETAIL_WORD as usize] <= most
        && words[CURSOR_WORD as usize] <= image.settings.out
}

// The byte at an address.
fn byte_at(words: &[u64], at: u64) -> u8
    requires { at / 8 < length words.now }
    ensures { result ≡ layout.byte_at (words_of words.now) at }
{
    part_of(Part::Byte(at % 8), words[(at / 8) as usize]) as u8
}

/// Fills the vector with so many bytes from an address on; no memory is taken.
pub fn fill(mut bytes: Vec<u8>, words: &[u64], at: u64, count: usize) -> Vec<u8>
    requires room { count ≤ vec_len bytes }
    requires within { at + count ≤ 8 * length words.now }
    ensures { result.items ≡ layout.bytes_from (words_of words.now) at count }
{
    for number in 0..count {
        bytes[number] = byte_at(words, at + number as u64);
    }
    bytes.truncate(count);
    bytes
}

/// The end where the words tell none: the first hart that has spent its budget, else a deadlock.
pub fn unfinished_end(harts: &[Hart], budget: u64) -> RunEnd
    requires { length harts.now ≤ 8 }
    ensures { result ≡ unfinished budget 0 harts.now }
{
    for number in 0..harts.len() {
        if harts[number].retired == budget {
            return RunEnd::BudgetSpent {
                hart: number as u32,
                count: budget,
            };
        }
    }
    RunEnd::Deadlock
}

/// The end of a run; `text` is room for the text of an uncaught exception.
pub fn read_end(image: &Image, harts: &[Hart], words: &[u64], text: Vec<u8>) -> RunEnd
    requires sound { layout.IsSound image.now.settings.out (words_of words.now) }
    requires room { LOG_START ≤ length words.now }
    requires few { length harts.now ≤ 8 }
    requires text { vec_len text ≡ 1024 }
    ensures { result ≡ ending image.now.settings.budget (words_of words.now) harts.now }
{
    let first = words[DETAIL_WORD as usize];
    let second = words[DETAIL_WORD as usize + 1];
    let third = words[DETAIL_WORD as usize + 2];
    match words[END_WORD as usize] {
        1 => RunEnd::Exited(first as u8),
        2 => {
            let text = fill(text, words, 8 * TEXT_WORD, first as usize);
            RunEnd::Uncaught(Items::from_vec(text))
        }
        3 => RunEnd::HeapFull {
            used: first,
            asked: second,
            size: third,
        },
        4 => RunEnd::StackFull {
            need: first,
            size: second,
        },
        5 => RunEnd::CallsFull {
            active: first as u32,
        },
        6 => RunEnd::OutputFull {
            used: first,
            asked: second,
            size: third,
        },
        _ => unfinished_end(harts, image.settings.budget),
    }
}

/// The bytes of the log, in room for all that it may have.
pub fn printed(image: &Image, words: &[u64], log: Vec<u8>) -> Vec<u8>
    requires sound { layout.IsSound image.now.settings.out (words_of words.now) }
    requires room { LOG_START + layout.log_words image.now.settings.out ≤ length words.now }
    requires log { vec_len log ≡ image.now.settings.out }
    ensures { result.items ≡ layout.log (words_of words.now) }
{
    let cursor = words[CURSOR_WORD as usize];
    fill(log, words, 8 * LOG_WORD, cursor as usize)
}
