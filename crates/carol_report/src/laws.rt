ghost use Rattle.carol_report.specs.Laws.{TurnsMakeOne};

use carol_history::history_laws;

/// Sessions that go on in turn make one history, which their program, their scene and the history
/// before it fix. It does nothing, and is called for its clause.
pub fn turns_laws()
    ensures { TurnsMakeOne }
{
    history_laws();
}
