ghost use Rattle.std.specs.Prelude.{◌≡◌, ◌++◌, IfOk, OnOk};
ghost use Rattle.std.specs.Fmt.{decimal};
ghost use Rattle.rf_rules.specs.RuleFiles.{bad_rules, fault_line, syntax_line, too_large_line};

use rf_rtree::KindFault;
use rf_text::{Bytes, Memory};
use std::alloc::Global;

/// Puts a number in decimal digits behind the text.
fn put_number(alloc: Global, out: &mut Bytes, number: u64) -> Result<(), Memory>
    ensures { OnOk result (out.new ≡ out.old ++ decimal number) }
{
    let text = format!(in alloc; "{number}")?;
    out.extend(text.as_bytes())
}

/// `bad rules FILE`, the front of a line.
fn front(alloc: Global, path: &[u8]) -> Result<Bytes, Memory>
    ensures { IfOk result (λ text. text ≡ bad_rules path.now) }
{
    let mut out = Bytes::from_slice(alloc, b"bad rules ")?;
    out.extend(path)?;
    Ok(out)
}

/// The line for a file that has no reading.
pub(crate) fn syntax(alloc: Global, path: &[u8], line: u32) -> Result<Bytes, Memory>
    ensures { IfOk result (λ text. text ≡ syntax_line path.now line) }
{
    let mut out = front(alloc, path)?;
    out.extend(b" line ")?;
    put_number(alloc, &mut out, line as u64)?;
    out.extend(b" syntax\n")?;
    Ok(out)
}

/// The line for a program with a kind fault.
pub(crate) fn kind_fault(alloc: Global, path: &[u8], fault: &KindFault) -> Result<Bytes, Memory>
    ensures { IfOk result (λ text. text ≡ fault_line path.now fault.now) }
{
    let mut out = front(alloc, path)?;
    out.extend(b" rule ")?;
    out.extend(fault.rule.as_slice())?;
    out.extend(b" line ")?;
    put_number(alloc, &mut out, fault.line as u64)?;
    out.extend(b" found ")?;
    out.extend(fault.found.as_slice())?;
    out.extend(b" wanted ")?;
    out.extend(fault.wanted.as_slice())?;
    out.extend(b"\n")?;
    Ok(out)
}

/// The line for a file of too many bytes.
pub(crate) fn too_large(alloc: Global, count: usize) -> Result<Bytes, Memory>
    ensures { IfOk result (λ text. text ≡ too_large_line count) }
{
    let mut out = Bytes::from_slice(alloc, b"too large text ")?;
    put_number(alloc, &mut out, count as u64)?;
    out.extend(b"\n")?;
    Ok(out)
}
