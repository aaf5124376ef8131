// What is told of reports.

ghost use Rattle.worked_answers.specs.Reports.{ReportFaultsAreTold};

/// A line that no report has is the one fault of its bytes, and so is the missing last line where there is none.
pub fn report_faults_are_told()
    ensures { ReportFaultsAreTold }
{}
