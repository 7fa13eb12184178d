#![tactic(auto, using(rf_jview::proofs::Walks::walks, std::proofs::lemmas::Grind::common_steps))]

ghost use Rattle.std.specs.Prelude.{◌≡◌, ◌∷◌, [], ◌++◌, OnOk, IfOk, option_map};
ghost use Rattle.std.specs.List.{flat_map, list_any};
ghost use Rattle.rf_jtree.specs.DeclShown.{members_shown, member_shown, decl_shown, import_shown, imports_shown, package_shown, unit_shown};
ghost use Rattle.rf_jtree.specs.DeclTrees.{package_yield};
ghost use Rattle.rf_jtree.specs.NameShown.{name_shown};
ghost use Rattle.rf_jtree.specs.NameTrees.{option_yield};
ghost use Rattle.rf_jview.specs.Accounts.{noted};
ghost use Rattle.rf_jview.specs.DeclMarks.{is_ctor, default_ctor_mark, brace_mark, decl_head_marks, decl_marks, import_name_marks, import_marks, unit_marks};
ghost use Rattle.rf_jview.specs.MarkWords.{plains, counted};

use crate::members::every_member;
use crate::params::names;
use rf_jfit::is_key_of;
use rf_jtree::keyword_names::CLASS;
use rf_jtree::{Import, Member, Name, Tok, TypeDecl, Unit};
use rf_jview::accounts::{note, plain};
use rf_jview::mods::{modifiers, optional_pair, toks};
use rf_jview::names::{plain_name, type_name};
use rf_jview::{Account, Mark};
use rf_text::{List, Memory};
use std::alloc::Global;

fn is_constructor(member: &Member) -> bool
    ensures { result ≡ is_ctor (member_shown member.now) }
{
    match member {
        Member::Ctor { .. } => true,
        _ => false,
    }
}

fn has_ctor(members: &List<Member>) -> bool
    ensures { result ≡ list_any is_ctor (members_shown members.now) }
{
    for member in members.as_slice() {
        if is_constructor(member) {
            return true;
        }
    }
    false
}

fn brace(declares: bool, account: &mut Account) -> Result<(), Memory>
    ensures { OnOk result
        (account.new ≡ noted account.old (default_ctor_mark declares ∷ [])) }
{
    if declares {
        note(account, Mark::DefaultCtor)
    } else {
        plain(account)
    }
}

fn class_brace(word: &Tok, members: &List<Member>, account: &mut Account) -> Result<(), Memory>
    ensures { OnOk result (account.new ≡ noted account.old
        (brace_mark word.now (members_shown members.now) ∷ [])) }
{
    let declares = is_key_of(word, &[CLASS]) && !has_ctor(members);
    brace(declares, account)
}

fn decl_head(decl: &TypeDecl, account: &mut Account) -> Result<(), Memory>
    ensures { OnOk result
        (account.new ≡ noted account.old (decl_head_marks (decl_shown decl.now))) }
{
    modifiers(&decl.mods, account)?;
    plain(account)?;
    note(account, Mark::Type)?;
    names(&decl.extends, account)?;
    names(&decl.implements, account)?;
    class_brace(&decl.word, &decl.members, account)
}

fn type_declaration(decl: &TypeDecl, account: &mut Account) -> Result<(), Memory>
    ensures { OnOk result (account.new ≡ noted account.old (decl_marks (decl_shown decl.now))) }
{
    decl_head(decl, account)?;
    every_member(&decl.members, account)?;
    plain(account)
}

fn import_name(name: &Name, star: &Option<(Tok, Tok)>, account: &mut Account) -> Result<(), Memory>
    ensures { OnOk result
        (account.new ≡ noted account.old (import_name_marks (name_shown name.now) star.now)) }
{
    match star {
        None => type_name(name, account),
        Some(_star) => plain_name(name, account),
    }
}

fn one_import(import: &Import, account: &mut Account) -> Result<(), Memory>
    ensures { OnOk result
        (account.new ≡ noted account.old (import_marks (import_shown import.now))) }
{
    plain(account)?;
    import_name(&import.name, &import.star, account)?;
    optional_pair(&import.star, account)?;
    plain(account)
}

fn imports(list: &List<Import>, account: &mut Account) -> Result<(), Memory>
    ensures { OnOk result (account.new ≡ noted account.old
        (flat_map import_marks (imports_shown list.now))) }
{
    for import in list.as_slice() {
        one_import(import, account)?;
    }
    Ok(())
}

#[tactic(auto, using(rf_jview::proofs::Walks::plain_walks, std::proofs::lemmas::Grind::common_steps))]
fn package_clause(clause: &Option<(Tok, Name, Tok)>, account: &mut Account) -> Result<(), Memory>
    ensures { OnOk result (account.new ≡ noted account.old
        (plains (option_yield package_yield (option_map package_shown clause.now)))) }
{
    match clause {
        None => Ok(()),
        Some(clause) => {
            plain(account)?;
            plain_name(&clause.1, account)?;
            plain(account)
        }
    }
}

/// Notes what stands at each token of a file, in linear time. It goes as deep as the file's statements and expressions.
pub fn walk_unit(unit: &Unit, account: &mut Account) -> Result<(), Memory>
    ensures { OnOk result (account.new ≡ noted account.old (unit_marks (unit_shown unit.now))) }
{
    package_clause(&unit.package, account)?;
    imports(&unit.imports, account)?;
    type_declaration(&unit.decl, account)?;
    toks(&unit.semis, account)
}

/// What stands at each token of a file.
#[tactic(auto, unfolding(rf_jview::specs::Accounts::noted))]
pub fn unit_account(alloc: Global, unit: &Unit) -> Result<List<Mark>, Memory>
    ensures { IfOk result (λ marks. marks ≡ unit_marks (unit_shown unit.now)) }
{
    let mut account = Account {
        list: List::new(alloc),
        back: 0,
    };
    walk_unit(unit, &mut account)?;
    let Account { list, back: _back } = account;
    Ok(list)
}

/// Puts what stands at each token of a file behind the marks of others.
pub fn unit_walk(alloc: Global, unit: &Unit, marks: &mut List<Mark>) -> Result<(), Memory>
    ensures { OnOk result (marks.new ≡ marks.old ++ unit_marks (unit_shown unit.now)) }
{
    let more = unit_account(alloc, unit)?;
    marks.append(more)
}
