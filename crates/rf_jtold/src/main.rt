//! What the parsers read, told as texts. The program reads a table of cases from the standard input and says how many it
//! has. A case is a line `WHAT TEXT => WANTED`, in which the tokens of the text stand apart by single spaces. Where what is
//! found isn't the wanted, the case is written with what was found. Lines without ` => ` say what the cases show.
//!
//! A tree is told by its tokens from left to right, with a space between two of them, and with `«` before and `»` behind each
//! of its larger nodes, so that no two trees of the same tokens are told alike: `a + b * c` is `«a + «b * c»»`, and
//! `if (a) if (b) c(); else d();` is `«if ( a ) «if ( b ) «c ( ) ;» else «d ( ) ;»»»`. No space stands within a name or a type,
//! behind `@`, nor before a pair of brackets that holds nothing: `«a.b . m ( )»` calls a method on the name `a.b`, and
//! `new int [ 3 ][]` has one size.
#![tactic(auto)]

mod cases;
mod decls;
mod exprs;
mod parts;
mod readers;
mod stmts;
mod tree_text;

use std::io;

fn main(rt: HostRuntime) -> io::Result<()> {
    let mut count = 0u32;
    for line in rt.lines(rt.alloc()) {
        if cases::judge(&rt, rt.alloc(), line?.as_bytes())? {
            count = count.wrapping_add(1);
        }
    }
    println!(rt; "{count} cases")
}
