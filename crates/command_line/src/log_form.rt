//! The form of the log.

/// How the log writes its lines.
#[derive(Clone, Copy)]
pub enum LogForm {
    /// As they are; whoever reads them adds the time.
    Text,
    /// Behind a time and a level.
    Timed,
    /// As objects of JSON.
    Json,
}

/// The form of a name, if it has one.
pub fn log_form_in(text: &str) -> Option<LogForm> {
    match text {
        "text" => Some(LogForm::Text),
        "timed" => Some(LogForm::Timed),
        "json" => Some(LogForm::Json),
        _ => None,
    }
}
