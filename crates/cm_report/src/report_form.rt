/// In which form a report is printed.
#[derive(Clone, Copy)]
pub enum ReportForm {
    /// As lines.
    Text,
    /// As one JSON object.
    Json,
}
