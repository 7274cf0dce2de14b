// What a list of faces is by candidates. Assumes nothing.
use sets::Wide;

// The candidates that are faces of the list, and those of them that are run against their normal form.
#[derive(Clone, Copy)]
pub struct Selection {
    pub taken: Wide,
    pub turned: Wide,
}
