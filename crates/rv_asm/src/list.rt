//! The listing of an image.

ghost use Rattle.std.specs.Prelude.{◌≡◌, ◌≤◌, ◌++◌, ◌*◌, ◌<◌, ◌^◌, length, IfOk, IfErr, OnOk};
ghost use Rattle.fx_base.specs.declared.refusal.Refusal.TheVariants.{Memory};
ghost use Rattle.rv_model.specs.Table.{AreWellFormed, IsWellFormed};
ghost use Rattle.rv_model.specs.declared.image.Image.{Image as ImageOf};
ghost use Rattle.rv_asm.specs.Listing.{head_line, code_line, code_lines, word_line, word_lines, listed, IsKept};

use crate::text::{put, put_hex, put_number, put_text};
use fx_base::Refusal;
use rv_model::{Image, Instr, StartWord};
use rv_table::encode;
use std::alloc::{AllocError, Global};

fn put_head(text: &mut Vec<u8>, image: &Image) -> Result<(), AllocError>
    ensures { OnOk result (text.new.items ≡ text.old.items ++ head_line image.now) }
{
    let settings = &image.settings;
    put_number(text, b"image ", settings.heap)?;
    put_number(text, b" ", settings.stack)?;
    put_number(text, b" ", settings.out)?;
    put_number(text, b" ", settings.budget)?;
    put_number(text, b" ", u64::from(settings.domains))?;
    put_number(text, b" ", image.size)?;
    put(text, b"\n")
}

fn put_code_line(text: &mut Vec<u8>, pc: u32, instr: &Instr) -> Result<(), AllocError>
    requires { IsWellFormed instr.now }
    ensures { OnOk result (text.new.items ≡ text.old.items ++ code_line pc instr.now) }
{
    put_hex(text, &pc.to_be_bytes())?;
    put(text, b" ")?;
    put_hex(text, &encode(instr).to_be_bytes())?;
    put(text, b" ")?;
    put_text(text, instr)?;
    put(text, b"\n")
}

fn put_code(text: &mut Vec<u8>, instrs: &[Instr]) -> Result<(), AllocError>
    requires short { length instrs.now ≤ 262144 }
    requires well_formed { AreWellFormed instrs.now }
    ensures { OnOk result (text.new.items ≡ text.old.items ++ code_lines 0 instrs.now) }
{
    for (k, instr) in instrs.iter().enumerate() {
        put_code_line(text, 4 * k as u32, instr)?;
    }
    Ok(())
}

fn put_word_line(text: &mut Vec<u8>, word: &StartWord) -> Result<(), AllocError>
    ensures { OnOk result (text.new.items ≡ text.old.items ++ word_line word.now) }
{
    put_number(text, b"word ", word.at)?;
    put(text, b" ")?;
    put_hex(text, &word.value.to_be_bytes())?;
    put(text, b"\n")
}

fn put_words(text: &mut Vec<u8>, words: &[StartWord]) -> Result<(), AllocError>
    ensures { OnOk result (text.new.items ≡ text.old.items ++ word_lines words.now) }
{
    for word in words {
        put_word_line(text, word)?;
    }
    Ok(())
}

/// The listing of an image: a line with its settings and its size, a line for each instruction with its
/// address, its word and its text, and a line for each word that isn't 0 at the start.
pub fn listing(alloc: Global, image: &Image) -> Result<Vec<u8>, Refusal>
    ensures is { IfOk result (λ text. text.items ≡ listed image.now) }
    ensures refused { IfErr result (λ refusal. refusal ≡ Memory) }
{
    let mut text = Vec::new(alloc);
    put_head(&mut text, image)?;
    put_code(&mut text, image.code.instrs())?;
    put_words(&mut text, image.start.as_slice())?;
    Ok(text)
}

/// Two images with the same listing are equal.
pub fn listings_differ()
    ensures { (image other : ImageOf) → IsKept image → IsKept other → listed image ≡ listed other → image ≡ other }
{}
