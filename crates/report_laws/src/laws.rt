// The laws.

ghost use Rattle.report_laws.specs.Linked.{LinkedIsRead, NamedIsLinked};

/// The report of a linked history, whose numbers fit their types, is read as that history without the notices that
/// weren't taken, and this one is linked too.
pub fn linked_reports_are_read()
    ensures read { LinkedIsRead }
    ensures linked { NamedIsLinked }
{}
