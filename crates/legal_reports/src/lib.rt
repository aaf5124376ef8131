// What it means for a report that the history which it is read as is legal.
//
// A law is a function with an empty body and a statement of `specs/` as its contract: no value is made and nothing
// runs. What is promised: of the history that bytes are read as it is found that it is legal exactly where the bytes
// are the report of a linked history, whatever stands in that one behind the notices that were taken; and the joint
// projection of that one is then a run, sound and complete.
//
// It stands above `check_laws`, which knows nothing of texts, and `report_laws`, which knows nothing of findings.
#![tactic(auto)]

ghost use Rattle.legal_reports.specs.Legal.{FoundLegalIsReport, LegalIsReport};

/// The history that bytes are read as is legal exactly where the bytes are the report of a linked history with as many
/// entries, whose joint projection is a sound and complete run. Whatever it is found to be, that is legal exactly
/// there.
pub fn legal_is_report()
    ensures legal { LegalIsReport }
    ensures found { FoundLegalIsReport }
{}
