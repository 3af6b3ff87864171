// What lies under the lock.
use kom_state_lock::Booked;

/// A sum of the turns that were taken.
#[derive(Drop)]
pub struct Counter {
    pub total: u64,
}

/// A pass has added one.
#[derive(Clone, Copy)]
pub struct Added {
    pub pass: u32,
}

impl Booked for Counter {
    ghost use Rattle.std.specs.Prelude.{◌≡◌, ◌+◌, ◌^◌, ◌%◌, ◌∷◌, [], fold};
    ghost use Rattle.std.proofs.Common.{refl, sym, ap, ◌∙◌};
    ghost use Rattle.std.proofs.lemmas.List.Sums.{fold-append};

    type Entry = Added;

    ghost pass_of = { λ e. e.pass };

    ghost follows = { λ old e new. new.total ≡ (old.total + 1) % 2 ^ 64 };

    ghost stays = { λ old new. new.total ≡ old.total };

    ghost led = { λ opening history value.
        value.total ≡ fold (λ n e. (n + 1) % 2 ^ 64) opening.total history };

    ghost itself_stays = { λ value. refl };

    ghost empty_leads = { λ opening. refl };

    ghost staying_leads = { λ opening history old new leads stays. stays ∙ leads };

    ghost following_leads = { λ opening history old e new leads follows.
        follows ∙ (ap (λ n. (n + 1) % 2 ^ 64) leads
        ∙ sym (fold-append (λ n e. (n + 1) % 2 ^ 64) opening.total history (e ∷ []))) };
}
