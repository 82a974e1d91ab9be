//! Laws of the definitions, each the contract of a function that does nothing.

ghost use Rattle.std.specs.Prelude.{◌≡◌, ℕ, List, Ok, None, codes};
ghost use Rattle.toml.specs.Data.{Members, get_member};
ghost use Rattle.daa_config.specs.declared.kind.Kind.{Kind};
ghost use Rattle.daa_config.specs.Settings.{Settings, IsAccepted};
ghost use Rattle.daa_config.specs.ConfigOf.{config_of};
ghost use Rattle.daa_config.specs.Before.{IsAsBefore, IsRecoveryAsBefore, IsDocumentAsBefore};
ghost use Rattle.daa_config.specs.Candidates.{grid_of, values_of, AreStepsUpTo};

/// A text that is taken has its numbers in their ranges.
pub fn accepted_is_in_range()
    ensures { (text : List ℕ) (settings : Settings) → config_of text ≡ Ok settings
        → IsAccepted settings }
{}

/// A level's table without a key `tau` and a key `tep` is read as if there were no such keys: it
/// has the same faults, and its model is that of `tcpa` alone.
pub fn levels_without_tau_and_tep_are_as_before()
    ensures { (table : Members) → get_member (codes "tau") table ≡ None
        → get_member (codes "tep") table ≡ None
        → IsAsBefore table }
{}

/// A recovery's table without a key `nearest` is read as if there were no such key: it has the
/// same faults, and does not ask for the nearest value.
pub fn recoveries_without_nearest_are_as_before()
    ensures { (table : Members) → get_member (codes "nearest") table ≡ None
        → IsRecoveryAsBefore table }
{}

/// A text without a key `last_times` at its top is read as if there were no such key: it has the
/// same faults, and the settings that it gives ask for no last times.
pub fn texts_without_last_times_are_as_before()
    ensures { (document : Members) → get_member (codes "last_times") document ≡ None
        → IsDocumentAsBefore document }
{}

/// The values of a kind are `min`, `min + step` and so on, up to the greatest such value that is
/// not above `max`.
pub fn values_are_all_steps()
    ensures { (kind : Kind) (settings : Settings) → IsAccepted settings
        → AreStepsUpTo (grid_of kind settings) (values_of kind settings) }
{}
