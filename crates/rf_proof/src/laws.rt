//! What the definitions say together: a text is of one refutation, and what is written is read back.
ghost use Rattle.std.specs.Prelude.{◌≡◌, ℕ, List, Result};
ghost use Rattle.rf_refute.specs.Trees.{Node};
ghost use Rattle.rf_refute.specs.declared.nodes.Tree.{Tree};
ghost use Rattle.rf_proof.specs.Lines.{IsBadLine};
ghost use Rattle.rf_proof.specs.Readings.{Gives, Reads};
ghost use Rattle.rf_proof.specs.Texts.{HaveLines, IsText, text_of};
ghost use Rattle.rf_proof.specs.Trees.{IsWhole};
ghost use Rattle.rf_proof.specs.declared.errors.TextErr.{TextErr};

/// A text is of one refutation at most.
pub fn texts_are_of_one_tree()
    ensures { (nodes others : List Node) (text : List ℕ) →
        IsText nodes text → IsText others text → nodes ≡ others }
{}

/// The text of a refutation has no bad line.
pub fn texts_have_no_bad_line()
    ensures { (nodes : List Node) (text : List ℕ) (k : ℕ) →
        IsText nodes text → IsBadLine text k → ⊥ }
{}

/// There is one first bad line at most.
pub fn bad_lines_are_unique()
    ensures { (text : List ℕ) (k j : ℕ) → IsBadLine text k → IsBadLine text j → k ≡ j }
{}

/// What is read from the text written of a whole tree is that tree.
pub fn written_trees_are_read_back()
    ensures { (nodes : List Node) (read : Result Tree TextErr) → HaveLines nodes → IsWhole nodes →
        Reads (text_of nodes) read → Gives nodes read }
{}
