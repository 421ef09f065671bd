//! Requests.
use inst_settings::Settings;

/// What a drill is to do.
#[derive(Drop)]
pub struct DrillRequest<'a, G> {
    /// The settings of the hub.
    pub settings: Settings,
    /// How many transfers are submitted in each opening.
    pub transfers: u16,
    /// How often the hub is opened, 1 to 10 times.
    pub openings: u8,
    /// The gate, passed once in each call of a worker thread.
    pub gate: &'a G,
    /// `true` if `progress` also gets a line as an opening begins.
    pub is_watched: bool,
}
