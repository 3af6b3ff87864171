ghost use Rattle.std.specs.Prelude.{◌≡◌, ◌≢◌, ◌++◌, ℕ, List, true, Bool};
ghost use Rattle.std.specs.List.{AllByRecursion};
ghost use Rattle.kom_types.specs.declared.acts.Record.{Record as Made};
ghost use Rattle.kom_types.specs.declared.items.Item.{Item as Given};
ghost use Rattle.kom_links.specs.Records.{has_session};
ghost use Rattle.kom_links.specs.Talk.{Step, Flushes, steps_of, IsTalk};
ghost use Rattle.kom_links.specs.declared.served.SessionEnd.{SessionEnd as EndOf};
ghost use Rattle.kom_hub.specs.Seats.{seat_records, IsMade};

/// The steps of a session among all records of a desk are some flushes, and then its steps among
/// what its seat shows.
pub fn whole_steps()
    ensures { (session : ℕ) (records : List Made) (given : List (List Given))
        → session ≢ 0 → has_session session records ≡ true
        → (before : List Step) × AllByRecursion (λ step. step ≡ Flushes) before
        × (steps_of session records given
        ≡ before ++ steps_of session (seat_records session records) given) }
{}

/// A talk by what its seat shows of the records of a desk is one by all of them.
pub fn whole_talk()
    ensures { (host input output : List ℕ) (ended : Bool) (records : List Made) (session : ℕ)
        (given : List (List Given)) (ending : EndOf) (full : Bool) → AllByRecursion IsMade records
        → (session ≢ 0 → has_session session records ≡ true)
        → IsTalk host input output ended (seat_records session records) session given ending full
        → IsTalk host input output ended records session given ending full }
{}
