ghost use Rattle.std.specs.Prelude.{◌≡◌, ◌↔◌, ℕ, Bool};
ghost use Rattle.rf_jtree.specs.DeclTrees.{UnitTree};
ghost use Rattle.rf_jview.specs.declared.marks.Mark.{Mark};
ghost use Rattle.rf_jmodel.specs.declared.projects.Project.{Project};
ghost use Rattle.rf_jmodel.specs.Elements.{HasElement, HasId};
ghost use Rattle.rf_jmodel.specs.OneType.{DeclaresOneType};
ghost use Rattle.rf_jmodel.specs.Supertypes.{IsBelow};
ghost use Rattle.rf_jview.specs.DeclMarks.{unit_marks};

/// An id is that of one element, and an element has one id at most.
pub fn ids_are_unique()
    ensures element { (project : Project) (of : Mark → Bool) (id : ℕ) (one other : ℕ × ℕ)
        → HasId project of id one → HasId project of id other → one ≡ other }
    ensures id { (project : Project) (of : Mark → Bool) (one other : ℕ) (key : ℕ × ℕ)
        → HasId project of one key → HasId project of other key → one ≡ other }
{}

/// Where a project is changed and the elements of a kind keep their keys, they keep their ids.
pub fn ids_stay()
    ensures { (old new : Project) (of : Mark → Bool)
        → ((key : ℕ × ℕ) → HasElement old of key ↔ HasElement new of key)
        → (id : ℕ) (key : ℕ × ℕ) → HasId old of id key → HasId new of id key }
{}

/// A file declares one type.
pub fn a_file_declares_one_type()
    ensures { (unit : UnitTree) → DeclaresOneType (unit_marks unit) }
{}

/// What is above a supertype is above the type.
pub fn supertypes_have_supertypes()
    ensures { (project : Project) (x y z : ℕ)
        → IsBelow project x y → IsBelow project y z → IsBelow project x z }
{}
