//! What the cards so far tell of the next.

use names::Names;

/// The names of all models, whether a model is open, whether its don't-care network is, and the cover that goes on.
pub struct Known {
    /// The names on the `.model` cards so far.
    pub models: Names,
    /// Whether a `.model` card was met and no `.end` behind it.
    pub is_inside: bool,
    /// Whether a `.exdc` card was met and no end of its model behind it.
    pub in_network: bool,
    /// The cover to which rows may still come; none behind another card that begins with `.`.
    pub cover: Option<OpenCover>,
}

/// By hand, so that letting go of one is a call.
impl Drop for Known {
    fn drop(self) {
        let Known {
            models: _models,
            is_inside: _is_inside,
            in_network: _in_network,
            cover: _cover,
        } = self;
    }
}

/// A cover that goes on: how many inputs it has, and the output of its first row.
#[derive(Clone, Copy)]
pub struct OpenCover {
    /// How many inputs the cover has, and so how many bytes a row.
    pub width: usize,
    /// The output of the first row, which all others must have; none before the first row.
    pub first: Option<bool>,
}
