ghost use Rattle.std.specs.Prelude.{◌≡◌, ℕ, List, ◌++◌, length};
ghost use Rattle.rf_jtree.specs.DeclFits.{UnitFits};
ghost use Rattle.rf_jtree.specs.DeclTrees.{MemberTree, UnitTree, member_yield, unit_yield, unit_depth};
ghost use Rattle.rf_jview.specs.DeclMarks.{member_marks, members_marks, unit_marks};
ghost use Rattle.rf_jview.specs.DeclWith.{unit_with};
ghost use Rattle.rf_jview.specs.MarkWords.{steady};
ghost use Rattle.rf_jview.specs.Namings.{Naming, rewriting};
ghost use Rattle.rf_jview.specs.Rewritings.{Rewriting, WritesNames};
ghost use Rattle.rf_jview.specs.Rewritten.{Rewritten};

/// A file has as many marks as tokens, and so has each member.
pub fn as_many_marks_as_tokens()
    ensures unit { (unit : UnitTree) → length (unit_marks unit) ≡ length (unit_yield unit) }
    ensures member { (member : MemberTree) →
        length (member_marks member) ≡ length (member_yield member) }
{}

/// The marks of members, one behind the other, are those of each, one behind the other.
pub fn members_keep_their_marks()
    ensures { (some more : List MemberTree) →
        members_marks (some ++ more) ≡ members_marks some ++ members_marks more }
{}

/// Where identifiers get other texts and types' names other packages, the marks stay, distances and all, but for how many
/// stand before the last identifier of such a name.
pub fn marks_stay()
    ensures { (g : Rewriting) (n : ℕ) (unit : UnitTree) →
        steady (unit_marks (unit_with g n unit)) ≡ steady (unit_marks unit) }
{}

/// Of a rewritten file each token is the old one, or that identifier with another text, or one of a type's name that is
/// written anew.
pub fn tokens_are_rewritten()
    ensures { (g : Rewriting) (n : ℕ) (unit : UnitTree) →
        Rewritten g n (unit_yield unit) (unit_yield (unit_with g n unit)) }
{}

/// A file that fits does so where it is rewritten, if what is written for names are names.
pub fn rewritten_files_fit()
    ensures { (g : Rewriting) → WritesNames g → (n : ℕ) (unit : UnitTree) →
        UnitFits unit → UnitFits (unit_with g n unit) }
{}

/// New names and new packages are written as names.
pub fn namings_write_names()
    ensures { (names : Naming) → WritesNames (rewriting names) }
{}

/// A file is as deep where it is rewritten.
pub fn depth_stays()
    ensures { (g : Rewriting) (n : ℕ) (unit : UnitTree) →
        unit_depth (unit_with g n unit) ≡ unit_depth unit }
{}
