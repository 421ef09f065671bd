//! Laws of marks.
ghost use Rattle.std.specs.Prelude.{◌≡◌, ◌⊎◌, ◌++◌, ◌∷◌, [], List, ℕ, true, false};
ghost use Rattle.inst_log.specs.Layout.{recovered_lines};
ghost use Rattle.inst_log.specs.Escape.{raw_of};
ghost use Rattle.inst_chain.specs.Chain.{is_mark, IsSealed, Collision};

/// States the law: no line that was read is written as a mark is.
pub fn no_line_is_a_mark()
    ensures { (line : List ℕ) → is_mark (raw_of line) ≡ false }
{}

/// States the law: two logs that share a mark have the same lines before it, or contain two
/// different texts with one SHA-256 digest.
pub fn one_digest_one_log()
    ensures { (a b : List ℕ) (mark : List ℕ) (old new : List (List ℕ)) (late later : List (List ℕ))
        → IsSealed a → IsSealed b → is_mark mark ≡ true
        → recovered_lines a ≡ old ++ mark ∷ late → recovered_lines b ≡ new ++ mark ∷ later
        → (old ≡ new) ⊎ Collision a b }
{}
