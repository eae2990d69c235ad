//! Reading the source file.

ghost use Rattle.std.specs.Prelude.{◌≡◌, ℕ, ◌+◌, ◌≤◌, ◌<◌, ◌⊎◌, ◌↔◌, List, None, Some, IfOk, OnErr, IsErrOf, IfErr, take, length, vec_len};
ghost use Rattle.std.specs.String.{string_bytes};
ghost use Rattle.fx_base.specs.Faults.{Rose};
ghost use Rattle.fx_base.specs.Told.{Told, Holds};
ghost use Rattle.effects_top.specs.Source.{HasFront, source_limit};

use fx_base::{Failed, Files, LimitKind, Refusal};
use std::alloc::{AllocError, Global};

/// The most bytes that a source file may have.
const MOST: usize = 1_048_576;

// Reads on behind the taken bytes, which stand in the front of `buf`.
fn read_on<F: Files>(
    files: &mut F,
    name: &str,
    buf: &mut [u8],
    taken: usize,
) -> Result<usize, Failed>
    requires opened { F.opened files.old ≡ Some name.now }
    requires count { F.taken files.old ≡ taken }
    requires within { taken < length buf.old }
    requires front { (file : List ℕ) → F.told files.old name.now ≡ Holds file → HasFront file taken buf.old }
    ensures within { IfOk result (λ n. taken + n ≤ length buf.old) }
    ensures front { (file : List ℕ) → F.told files.old name.now ≡ Holds file → IfOk result (λ n. HasFront file (taken + n) buf.new) }
    ensures end_ { (file : List ℕ) → F.told files.old name.now ≡ Holds file → IfOk result (λ n. n ≡ 0 → taken ≡ length file) }
    ensures taken { IfOk result (λ n. F.taken files.new ≡ taken + n) }
    ensures untaken { OnErr result (F.taken files.new ≡ taken) }
    ensures failed { OnErr result (Rose (F.faults files.old) (F.faults files.new)) }
    ensures faults { F.faults files.old ≤ F.faults files.new }
    ensures opened { F.opened files.new ≡ Some name.now }
    ensures told { F.told files.new ≡ F.told files.old }
{
    files.read(&mut buf[taken..])
}

// Reads the opened name into the front of `buf`, to its end or until `buf` is full.
fn fill<F: Files>(files: &mut F, name: &str, buf: &mut [u8]) -> Result<usize, Failed>
    requires opened { F.opened files.old ≡ Some name.now }
    requires untouched { F.taken files.old ≡ 0 }
    ensures within { IfOk result (λ n. n ≤ length buf.old) }
    ensures taken { IfOk result (λ n. F.taken files.new ≡ n) }
    ensures front { (file : List ℕ) → F.told files.old name.now ≡ Holds file → IfOk result (λ n. HasFront file n buf.new) }
    ensures all { (file : List ℕ) → F.told files.old name.now ≡ Holds file → IfOk result (λ n. n < length buf.old → n ≡ length file) }
    ensures short { OnErr result (F.taken files.new < length buf.old) }
    ensures failed { OnErr result (Rose (F.faults files.old) (F.faults files.new)) }
    ensures faults { F.faults files.old ≤ F.faults files.new }
    ensures opened { F.opened files.new ≡ Some name.now }
    ensures told { F.told files.new ≡ F.told files.old }
{
    let mut taken = 0;
    while taken < buf.len() {
        let count = read_on(files, name, buf, taken)?;
        if count == 0 {
            return Ok(taken);
        }
        taken += count;
    }
    Ok(taken)
}

fn zeros(alloc: Global, count: usize) -> Result<Vec<u8>, AllocError>
    ensures { IfOk result (λ bytes. vec_len bytes ≡ count) }
{
    vec![in alloc; 0; count]
}

/// The bytes of a file, whole.
///
/// # Errors
///
/// `File` where a read fails, `Limit` where there are more than 1,048,576 bytes, and `Memory`.
pub fn read_source<F: Files>(alloc: Global, files: &mut F, name: &str) -> Result<Vec<u8>, Refusal>
    requires { F.opened files.old ≡ None }
    ensures opened { (F.opened files.new ≡ Some name.now) ⊎ (IsErrOf result Refusal.Memory × (F.opened files.new ≡ None)) }
    ensures whole { (file : List ℕ) → F.told files.old name.now ≡ Holds file → IfOk result (λ source. source.items ≡ file) }
    ensures taken { IfOk result (λ source. F.taken files.new ≡ vec_len source) }
    ensures short { IfOk result (λ source. vec_len source ≤ 1048576) }
    ensures limit { IsErrOf result source_limit ↔ ((F.opened files.new ≡ Some name.now) × (F.taken files.new ≡ 1048577)) }
    ensures file { IsErrOf result Refusal.File → Rose (F.faults files.old) (F.faults files.new) }
    ensures others { IfErr result (λ e. (e ≡ Refusal.File) ⊎ (e ≡ source_limit) ⊎ (e ≡ Refusal.Memory)) }
    ensures faults { F.faults files.old ≤ F.faults files.new }
    ensures told { F.told files.new ≡ F.told files.old }
{
    let mut source = zeros(alloc, MOST + 1)?;
    files.open(String::from_str(alloc, name)?);
    let Ok(taken) = fill(files, name, &mut source) else {
        return Err(Refusal::File);
    };
    if taken > MOST {
        return Err(Refusal::Limit {
            kind: LimitKind::Source,
            found: 1_048_577,
            bound: 1_048_576,
        });
    }
    source.truncate(taken);
    Ok(source)
}
