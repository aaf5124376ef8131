// Laws of reading reports, each the contract of a function that does nothing.

ghost use Rattle.report_reader.specs.Laws.{EachIsReadBack, NamedIsRead, ReportsAreOne};

/// Bytes are read as at most one history. The report of each history is read, as one with the same entries but for
/// where their spans stand, and for replies of which two have one text; and as itself, where its replies are meant and
/// its spans stand one behind another, but for what stands in its lists behind the last number that is named.
pub fn reports_are_read()
    ensures one { ReportsAreOne }
    ensures any { EachIsReadBack }
    ensures named { NamedIsRead }
{}
