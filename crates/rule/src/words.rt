ghost use Rattle.std.specs.Prelude.{◌≡◌, IfErr, OnOk};
ghost use Rattle.rule.specs.Intake.{Worded};

use crate::fault::Fault;
use crate::nodes::Rule;

// Every node has a row that its words are within.
pub(crate) fn check_words(rule: Rule) -> Result<(), Fault>
    ensures ok { OnOk result (Worded rule.entry.words.now) }
    ensures err { IfErr result (λ f. (f ≡ Fault.OutsideRow) × (Worded rule.entry.words.now → ⊥)) }
{
    if rule.nodes().all(|node| node.row().is_some()) {
        Ok(())
    } else {
        Err(Fault::OutsideRow)
    }
}
