//! A component that was read.
use fort_tree::Component;

/// A component that was read from tokens. Who lets one go calls this type's `drop`, which is proved
/// here once for all crates above.
pub struct Parsed {
    pub component: Component,
}

impl Drop for Parsed {
    fn drop(self) {
        let Parsed {
            component: _component,
        } = self;
    }
}
