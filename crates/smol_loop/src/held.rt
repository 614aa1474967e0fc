use smol_print::Pages;
use smol_streams::Streams;
use smol_types::State;

/// What a run changes as it goes on: its state, the random words of its seed, and the pages that its commands print to, one
/// an outlet.
#[derive(Drop)]
pub struct Held {
    pub state: State,
    pub streams: Streams,
    pub pages: Pages,
}
