//! Lists of words, variables and queries, with a comma and a space between two of them.
ghost use Rattle.std.specs.Prelude.{◌≡◌, ◌++◌, map, OnOk};
ghost use Rattle.rf_rtree.specs.Plain.{with_commas, after_commas, word_text, var_text, ask_text, asks_text};

use rf_rtree::{Ask, RVar, Word};
use rf_text::{Bytes, Memory};

fn print_more_words(mut words: &[Word], out: &mut Bytes) -> Result<(), Memory>
    ensures { OnOk result (out.new ≡ out.old ++ after_commas (map word_text words.entry.now)) }
{
    while let [word, rest @ ..] = words {
        out.extend(b", ")?;
        out.extend(word.text.as_slice())?;
        words = rest;
    }
    Ok(())
}

fn print_words(words: &[Word], out: &mut Bytes) -> Result<(), Memory>
    ensures { OnOk result (out.new ≡ out.old ++ with_commas (map word_text words.now)) }
{
    let [word, rest @ ..] = words else {
        return Ok(());
    };
    out.extend(word.text.as_slice())?;
    print_more_words(rest, out)?;
    Ok(())
}

fn print_var(var: &RVar, out: &mut Bytes) -> Result<(), Memory>
    ensures { OnOk result (out.new ≡ out.old ++ var_text var.now) }
{
    out.extend(var.name.text.as_slice())?;
    out.extend(b": ")?;
    out.extend(var.kind.text.as_slice())?;
    Ok(())
}

fn print_more_vars(mut vars: &[RVar], out: &mut Bytes) -> Result<(), Memory>
    ensures { OnOk result (out.new ≡ out.old ++ after_commas (map var_text vars.entry.now)) }
{
    while let [var, rest @ ..] = vars {
        out.extend(b", ")?;
        print_var(var, out)?;
        vars = rest;
    }
    Ok(())
}

pub fn print_vars(vars: &[RVar], out: &mut Bytes) -> Result<(), Memory>
    ensures { OnOk result (out.new ≡ out.old ++ with_commas (map var_text vars.now)) }
{
    let [var, rest @ ..] = vars else {
        return Ok(());
    };
    print_var(var, out)?;
    print_more_vars(rest, out)?;
    Ok(())
}

pub fn print_ask(ask: &Ask, out: &mut Bytes) -> Result<(), Memory>
    ensures { OnOk result (out.new ≡ out.old ++ ask_text ask.now) }
{
    out.extend(ask.name.text.as_slice())?;
    out.extend(b"(")?;
    print_words(ask.args.as_slice(), out)?;
    out.extend(b")")?;
    Ok(())
}

fn print_more_asks(mut asks: &[Ask], out: &mut Bytes) -> Result<(), Memory>
    ensures { OnOk result (out.new ≡ out.old ++ after_commas (map ask_text asks.entry.now)) }
{
    while let [ask, rest @ ..] = asks {
        out.extend(b", ")?;
        print_ask(ask, out)?;
        asks = rest;
    }
    Ok(())
}

/// The queries, where there are any, behind what stands before them.
pub fn print_asks(before: &[u8], asks: &[Ask], out: &mut Bytes) -> Result<(), Memory>
    ensures { OnOk result (out.new ≡ out.old ++ asks_text before.now asks.now) }
{
    let [ask, rest @ ..] = asks else {
        return Ok(());
    };
    out.extend(before)?;
    print_ask(ask, out)?;
    print_more_asks(rest, out)?;
    Ok(())
}
