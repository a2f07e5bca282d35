//! DESTINATION_PROTOCOL.

/// How datapoints are written to the destinations.
#[derive(Clone, Copy)]
pub enum DestinationProtocol {
    /// `line`: a line of text for each.
    Line,
}
