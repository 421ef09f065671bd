//! Laws of the model, of all participants' books and of marks: calling a law proves what it states.
ghost use Rattle.std.specs.Prelude.{◌≡◌, ◌⊎◌, ◌++◌, ◌∷◌, List, ℕ, true};
ghost use Rattle.inst_log.specs.Layout.{recovered_lines};
ghost use Rattle.inst_chain.specs.Chain.{is_mark, IsSealed, Collision};
ghost use Rattle.inst_model.specs.OneOutcome.{OutcomeStays};
ghost use Rattle.inst_participant.specs.Together.{TogetherTheyFit};

use inst_board::Board;
use inst_chain::one_digest_one_log;
use inst_model::laws::a_transfer_has_one_outcome;
use inst_participant::laws::together_books_fit;

/// An outcome never changes.
pub fn model()
    ensures { OutcomeStays }
{
    a_transfer_has_one_outcome(); // the prover knows its clauses from here on
}

/// The books of all participants fit one another.
pub fn together<B: Board>()
    ensures { TogetherTheyFit B.settings B.knows B.has_role }
{
    together_books_fit::<B>();
}

/// Two logs that share a mark have the same lines before it, or contain two different texts with
/// one digest.
pub fn chain()
    ensures { (a b : List ℕ) (mark : List ℕ) (old new : List (List ℕ)) (late later : List (List ℕ))
        → IsSealed a → IsSealed b → is_mark mark ≡ true
        → recovered_lines a ≡ old ++ mark ∷ late → recovered_lines b ≡ new ++ mark ∷ later
        → (old ≡ new) ⊎ Collision a b }
{
    one_digest_one_log(); // `Collision` has the two texts, parts of the two files
}
