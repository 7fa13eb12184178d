#![tactic(auto, using(rf_jtree::proofs::StmtShows::stmt_shows, rf_jview::proofs::Walks::variables, std::proofs::lemmas::Grind::common_steps))]

ghost use Rattle.std.specs.Prelude.{◌≡◌, OnOk};
ghost use Rattle.rf_jtree.specs.StmtShown.{stmt_shown, block_shown, stmts_shown, other_shown, group_shown, groups_shown, catch_shown, catches_shown, last_shown, for_tree, each_tree};
ghost use Rattle.rf_jview.specs.declared.marks.Opening.TheVariants as o;
ghost use Rattle.rf_jview.specs.Accounts.{back_of, noted};
ghost use Rattle.rf_jview.specs.MarkWords.{opens};
ghost use Rattle.rf_jview.specs.StmtMarks.{stmt_marks, block_marks, stmts_marks, other_marks, group_marks, groups_marks, catch_marks, catches_marks, last_marks};
ghost use Rattle.rf_jwalk.specs.Parts.{for_marks, switch_marks};

use crate::heads::{assertion, catch_head, each_head, for_head, head, optional_expr};
use crate::vars::local_declaration;
use rf_jtree::{Block, Catch, ForHead, Group, Stmt, Tok};
use rf_jview::accounts::{enter, open, plain};
use rf_jview::exprs::expr;
use rf_jview::mods::optional_tok;
use rf_jview::{Account, Opening};
use rf_text::Memory;

/// A statement, or a local declaration among statements. It goes as deep as the statement.
#[cycle(stmt)]
pub fn stmt(tree: &Stmt, account: &mut Account) -> Result<(), Memory>
    ensures { OnOk result (account.new ≡ noted account.old
        (stmt_marks (back_of account.old) (stmt_shown tree.now))) }
{
    match tree {
        Stmt::Block(braces) => block(braces, Opening::Block, account),
        Stmt::Empty(_semi) => plain(account),
        Stmt::Local(local, _semi) => {
            local_declaration(local, account)?;
            plain(account)
        }
        Stmt::Label(_id, _colon, body) => {
            plain(account)?;
            plain(account)?;
            stmt(body, account)
        }
        Stmt::Expression(expression, _semi) => {
            expr(expression, account)?;
            plain(account)
        }
        Stmt::If {
            head: front,
            then,
            other: alternative,
        } => {
            head(front, account)?;
            stmt(then, account)?;
            other(alternative, account)
        }
        Stmt::While { head: front, body } => {
            head(front, account)?;
            stmt(body, account)
        }
        Stmt::Do {
            word: _word,
            body,
            until,
            semi: _semi,
        } => {
            plain(account)?;
            stmt(body, account)?;
            head(until, account)?;
            plain(account)
        }
        Stmt::For { head: front, body } => for_loop(front, body, account),
        Stmt::Each { head: front, body } => {
            each_head(front, account)?;
            each_body(body, account)
        }
        Stmt::Switch {
            head: front,
            brace: _brace,
            groups: list,
            end: _end,
        } => {
            head(front, account)?;
            switch_body(list.as_slice(), account)
        }
        Stmt::Jump(_word, label, _semi) => {
            plain(account)?;
            optional_tok(label, account)?;
            plain(account)
        }
        Stmt::Return(_word, expression, _semi) => {
            plain(account)?;
            optional_expr(expression, account)?;
            plain(account)
        }
        Stmt::Throw(_word, expression, _semi) => {
            plain(account)?;
            expr(expression, account)?;
            plain(account)
        }
        Stmt::Sync { head: front, body } => {
            head(front, account)?;
            block(body, Opening::Block, account)
        }
        Stmt::Assert(_word, test, message, _semi) => {
            plain(account)?;
            assertion(test, message, account)?;
            plain(account)
        }
        Stmt::Try {
            word: _word,
            body,
            catches: list,
            last: finally,
        } => {
            plain(account)?;
            block(body, Opening::Block, account)?;
            catches(list.as_slice(), account)?;
            last(finally, account)
        }
    }
}

#[cycle(stmt)]
#[tactic(auto, using(rf_jview::proofs::Walks::blocks, std::proofs::lemmas::Grind::common_steps))]
fn for_loop(front: &ForHead, body: &Stmt, account: &mut Account) -> Result<(), Memory>
    ensures { OnOk result (account.new ≡ noted account.old
        (for_marks front.now (stmt_shown body.now))) }
{
    let start = enter(account)?;
    for_head(front, account)?;
    stmt(body, account)?;
    open(account, start, Opening::Block)
}

#[cycle(stmt)]
#[tactic(auto, using(rf_jview::proofs::Walks::blocks, std::proofs::lemmas::Grind::common_steps))]
fn each_body(body: &Stmt, account: &mut Account) -> Result<(), Memory>
    ensures { OnOk result (account.new ≡ noted account.old
        (opens o.Block (stmt_marks 1 (stmt_shown body.now)))) }
{
    let start = enter(account)?;
    stmt(body, account)?;
    open(account, start, Opening::Block)
}

#[cycle(stmt)]
#[tactic(auto, using(rf_jview::proofs::Walks::blocks, std::proofs::lemmas::Grind::common_steps))]
fn switch_body(list: &[Group], account: &mut Account) -> Result<(), Memory>
    ensures { OnOk result (account.new ≡ noted account.old
        (switch_marks (groups_shown list.now))) }
{
    let start = enter(account)?;
    groups(list, account)?;
    plain(account)?;
    open(account, start, Opening::Block)
}

/// Statements in braces.
#[cycle(stmt)]
#[tactic(auto, using(rf_jtree::proofs::StmtShows::block_shown_out, rf_jview::proofs::Walks::blocks, std::proofs::lemmas::Grind::common_steps))]
pub fn block(braces: &Block, opening: Opening, account: &mut Account) -> Result<(), Memory>
    ensures { OnOk result (account.new ≡ noted account.old
        (block_marks opening (block_shown braces.now))) }
{
    let start = enter(account)?;
    stmts(braces.list.as_slice(), account)?;
    plain(account)?;
    open(account, start, opening)
}

/// The statements of a list.
#[cycle(stmt)]
pub fn stmts(list: &[Stmt], account: &mut Account) -> Result<(), Memory>
    ensures { OnOk result (account.new ≡ noted account.old
        (stmts_marks (back_of account.old) (stmts_shown list.now))) }
{
    for one in list {
        stmt(one, account)?;
    }
    Ok(())
}

#[cycle(stmt)]
fn other(alternative: &Option<(Tok, Box<Stmt>)>, account: &mut Account) -> Result<(), Memory>
    ensures { OnOk result (account.new ≡ noted account.old
        (other_marks (back_of account.old) (other_shown alternative.now))) }
{
    match alternative {
        None => Ok(()),
        Some(alternative) => {
            plain(account)?;
            stmt(&alternative.1, account)
        }
    }
}

#[cycle(stmt)]
#[tactic(auto, using(rf_jtree::proofs::StmtShows::group_shown_out, rf_jview::proofs::Walks::variables, std::proofs::lemmas::Grind::common_steps))]
fn group(part: &Group, account: &mut Account) -> Result<(), Memory>
    ensures { OnOk result (account.new ≡ noted account.old
        (group_marks (back_of account.old) (group_shown part.now))) }
{
    plain(account)?;
    optional_expr(&part.expression, account)?;
    plain(account)?;
    stmts(part.body.as_slice(), account)
}

#[cycle(stmt)]
fn groups(list: &[Group], account: &mut Account) -> Result<(), Memory>
    ensures { OnOk result (account.new ≡ noted account.old
        (groups_marks (back_of account.old) (groups_shown list.now))) }
{
    for part in list {
        group(part, account)?;
    }
    Ok(())
}

#[cycle(stmt)]
#[tactic(auto, using(rf_jtree::proofs::StmtShows::catch_shown_out, rf_jview::proofs::Walks::walks, std::proofs::lemmas::Grind::common_steps))]
fn catch_clause(part: &Catch, account: &mut Account) -> Result<(), Memory>
    ensures { OnOk result (account.new ≡ noted account.old (catch_marks (catch_shown part.now))) }
{
    catch_head(&part.fixed, &part.name, account)?;
    block(&part.body, Opening::Block, account)
}

#[cycle(stmt)]
fn catches(list: &[Catch], account: &mut Account) -> Result<(), Memory>
    ensures { OnOk result
        (account.new ≡ noted account.old (catches_marks (catches_shown list.now))) }
{
    for part in list {
        catch_clause(part, account)?;
    }
    Ok(())
}

#[cycle(stmt)]
fn last(finally: &Option<(Tok, Box<Block>)>, account: &mut Account) -> Result<(), Memory>
    ensures { OnOk result (account.new ≡ noted account.old (last_marks (last_shown finally.now))) }
{
    match finally {
        None => Ok(()),
        Some(finally) => {
            plain(account)?;
            block(&finally.1, Opening::Block, account)
        }
    }
}
