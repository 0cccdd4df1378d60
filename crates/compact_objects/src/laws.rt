// What is read from a text.
ghost use Rattle.std.specs.Prelude.{◌≡◌, ℕ, List, Some, false};
ghost use Rattle.serde_json.specs.Data.{Data};
ghost use Rattle.serde_json.specs.Read.{read};
ghost use Rattle.serde_json.specs.Written.{has_float};
ghost use Rattle.trees.specs.Canonical.{IsCanonical};

/// A value of whole numbers that was read from a text is canonical: its keys ascend, and each number is the one that
/// its digits are read as. So is the value of each line that `compact` accepts.
#[tactic(auto, using(crate::proofs::Readings::read_is_canonical))]
pub fn what_is_read_is_canonical()
    ensures { (text : List ℕ) (d : Data) → read text ≡ Some d → has_float d ≡ false → IsCanonical d }
{}
