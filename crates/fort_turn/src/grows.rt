//! What a turn sees of the book that it hands round.
ghost use Rattle.std.specs.Prelude.{◌≡◌, ℕ, List, length};

/// A book with a history, which is a list of entries, and an origin, which no entry changes.
///
/// Its holders add entries at the end of the history, and each entry names the pass of the holder
/// that added it. A book need not be `Send`: a turn crosses threads where its book may.
pub trait Grows {
    ghost Entry: { Type 0 };

    ghost Origin: { Type 0 };

    // All entries, the oldest first.
    ghost history: { Self → List Entry };

    ghost origin: { Self → Origin };

    // The number of the pass that an entry names.
    ghost by: { Entry → ℕ };

    /// The number of entries of the history.
    fn length(&self) -> u64
        ensures { result ≡ length (history self.now) };
}
