//! Laws of the definitions.
ghost use Rattle.std.specs.Prelude.{◌≡◌, ◌↔◌, ℕ, List, Some};
ghost use Rattle.bean_pad.specs.Note.{waiting};
ghost use Rattle.bean_pad.specs.Waiting.{IsWaiting};
ghost use Rattle.bean_pad.specs.declared.step.Step.{Step};

/// A pad waits for the first balance on its account in a currency, up to the next pad on it.
pub fn pad_waits_for_the_first_balance()
    ensures { (past : List Step) (account currency : List ℕ) (pad : ℕ)
        → (waiting past account currency ≡ Some pad) ↔ IsWaiting past account currency pad }
{}
