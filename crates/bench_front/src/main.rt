//! The front end alone, for measurements and for cases. `bench_front tokens FILE` prints `tokens N`, with the number of
//! tokens. `bench_front tree FILE` prints `tree N`, with the same number, or `syntax` where the tokens have no tree.
//! `bench_front expr FILE` prints `expr N`, with the number of the token behind the expression that the file begins with, or
//! `syntax` where it begins with none. Each prints `lex OFFSET`, with the byte at which no token begins, where there is one.
#![tactic(auto)]

use rf_jdecl::unit;
use rf_jexpr::{ParseErr, boxed_expr};
use rf_jlex::{LexErr, lex};
use rf_jtree::{Tok, Toks};
use rf_text::Bytes;
use rf_world::{RealWorld, World, WorldErr};
use std::alloc::Global;
use std::io::{ErrorKind, Print};
use std::mem::forget;
use std::process::ExitCode;
use std::rt::{Env, Files};
use std::{env, io};

/// How deep the trees are that are read.
const ROOM: u32 = 200;

/// What is asked of a file.
#[derive(Clone, Copy, Debug)]
enum Mode {
    /// How many tokens it has.
    Tokens,
    /// Where the expression ends that it begins with.
    Expr,
    /// Whether it has a tree.
    Tree,
}

/// What is said of a file.
#[derive(Clone, Copy, Debug)]
enum Verdict {
    /// It has this many tokens.
    Tokens(usize),
    /// The expression that it begins with ends before this token.
    Expr(usize),
    /// It has a tree, with this many tokens.
    Tree(usize),
    /// No token begins at this byte.
    Fault(usize),
    /// It has no tree, or doesn't begin with an expression.
    Syntax,
}

/// Why nothing is said. The numbers are those that `refacola` ends with for the same causes.
#[derive(Clone, Copy, Debug)]
enum Failure {
    BadWords = 3,
    ReadFault = 7,
    WriteFault = 8,
    Memory = 9,
}

fn main(rt: HostRuntime) -> ExitCode {
    let Err(failure) = run(&rt) else {
        return ExitCode::SUCCESS;
    };
    // A line that can't be put is told by the status, as each failure is.
    let _put = println!(rt; "{}", line_of(failure));
    ExitCode::from(failure as u8)
}

fn line_of(failure: Failure) -> &'static str {
    match failure {
        Failure::BadWords => "bad words",
        Failure::ReadFault => "read fault",
        Failure::WriteFault => "write fault",
        Failure::Memory => "out of memory",
    }
}

/// Says what the words ask for.
fn run<R: Env + Files + Print + AllocGlobal + Clone + Drop>(rt: &R) -> Result<(), Failure> {
    let (mode, file) = asked(rt.alloc(), rt)?;
    let mut world = RealWorld::new(rt);
    match verdict_on(rt.alloc(), &mut world, mode, file.as_slice())? {
        Verdict::Tokens(count) => println!(rt; "tokens {count}"),
        Verdict::Expr(end) => println!(rt; "expr {end}"),
        Verdict::Tree(count) => println!(rt; "tree {count}"),
        Verdict::Fault(offset) => println!(rt; "lex {offset}"),
        Verdict::Syntax => println!(rt; "syntax"),
    }
    .map_err(|_| Failure::WriteFault)
}

fn mode_named(word: &str) -> Option<Mode> {
    match word {
        "tokens" => Some(Mode::Tokens),
        "expr" => Some(Mode::Expr),
        "tree" => Some(Mode::Tree),
        _ => None,
    }
}

/// Why the words can't be read: for want of memory, or since one of them isn't UTF-8.
fn words_failure(error: io::Error) -> Failure {
    match error.kind() {
        ErrorKind::OutOfMemory => Failure::Memory,
        _ => Failure::BadWords,
    }
}

/// The MODE and the FILE of the words.
fn asked<R: Env + AllocGlobal>(alloc: Global, rt: &R) -> Result<(Mode, Bytes), Failure> {
    let mut words = env::args(rt).map_err(words_failure)?;
    let _program = words.next();
    let Some(command) = words.next() else {
        return Err(Failure::BadWords);
    };
    let Some(file) = words.next() else {
        return Err(Failure::BadWords);
    };
    let Some(mode) = mode_named(command.as_str()) else {
        return Err(Failure::BadWords);
    };
    if words.next().is_some() {
        return Err(Failure::BadWords);
    }
    match Bytes::from_slice(alloc, file.as_bytes()) {
        Ok(file) => Ok((mode, file)),
        Err(_) => Err(Failure::Memory),
    }
}

/// Reads the expression that the tokens begin with.
fn expr_verdict(alloc: Global, toks: &[Tok]) -> Result<Verdict, Failure> {
    match boxed_expr(alloc, toks, 0, ROOM) {
        Ok(found) => Ok(Verdict::Expr(found.end)),
        Err(ParseErr::NoTree) => Ok(Verdict::Syntax),
        Err(ParseErr::Memory) => Err(Failure::Memory),
    }
}

/// Reads the file that the tokens are.
fn tree_verdict(alloc: Global, toks: &Toks) -> Result<Verdict, Failure> {
    match unit(alloc, toks) {
        Ok(tree) => {
            forget(tree);
            Ok(Verdict::Tree(toks.list.len()))
        }
        Err(ParseErr::NoTree) => Ok(Verdict::Syntax),
        Err(ParseErr::Memory) => Err(Failure::Memory),
    }
}

fn toks_verdict(alloc: Global, mode: Mode, toks: &Toks) -> Result<Verdict, Failure> {
    match mode {
        Mode::Tokens => Ok(Verdict::Tokens(toks.list.len())),
        Mode::Expr => expr_verdict(alloc, toks.list.as_slice()),
        Mode::Tree => tree_verdict(alloc, toks),
    }
}

/// Reads a file, lexes it and goes on with its tokens. The program ends next, so tokens and tree are left to the system,
/// which is sooner than letting go of each of their parts.
fn verdict_on<W: World>(
    alloc: Global,
    world: &mut W,
    mode: Mode,
    path: &[u8],
) -> Result<Verdict, Failure> {
    match world.read(alloc, b"", path) {
        Ok(file) => match lex(alloc, file.as_slice()) {
            Ok(toks) => {
                let verdict = toks_verdict(alloc, mode, &toks);
                forget(toks);
                verdict
            }
            Err(LexErr::Fault { offset }) => Ok(Verdict::Fault(offset)),
            Err(LexErr::Memory) => Err(Failure::Memory),
        },
        Err(WorldErr::Failed) => Err(Failure::ReadFault),
        Err(WorldErr::Memory) => Err(Failure::Memory),
    }
}
