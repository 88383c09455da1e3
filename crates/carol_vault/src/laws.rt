ghost use Rattle.carol_vault.specs.Laws.{FindingsAreSingle, ShownIsSound};

use carol_audit::event_numbers;

/// What holds of all files: one thing is found of each, and where it shows a history, that it keeps
/// this one. It does nothing, and is called for its clauses.
pub fn vault_laws()
    ensures single { FindingsAreSingle }
    ensures shown { ShownIsSound }
{
    event_numbers();
}
