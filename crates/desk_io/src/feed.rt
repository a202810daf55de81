ghost use Rattle.std.specs.Prelude.{ℕ, List, Result, ◌++◌};

/// What bytes are handed to, piece by piece.
pub trait Feed {
    /// Why it refuses a piece.
    type Fault;

    /// How a call may go: the feed before it, the piece, the answer, and the feed after it.
    ghost feed_gives: { Self → List ℕ → Result (Unit {0}) Self.Fault → Self → Type 0 };

    /// Hands it the next piece.
    fn feed(&mut self, piece: &[u8]) -> Result<(), Self::Fault>
        ensures { feed_gives self.old piece.now result self.new };
}

/// A feed that reads a value. What it comes to depends on the bytes alone, and not on how they were cut into pieces.
pub trait Reader: Feed {
    ghost use Rattle.std.specs.Prelude.{◌≡◌, ◌⊎◌, ◌++◌, [], ℕ, List, Result, Option, Err, Ok, Some, IfOk, IfErr};
    ghost use Rattle.desk_io.specs.Reader.{TakesPiece, StandsAt};

    /// What the bytes stand for.
    type Value;

    /// The fault of a reader that has no memory for what it reads.
    ghost no_memory: { Self.Fault };

    /// The first fault that is plain by the end of these bytes, after what was fed before. A reader that has refused is
    /// at its fault with no bytes more.
    ghost refused: { Self → List ℕ → Option Self.Fault };

    /// What these bytes, after what was fed before, come to where nothing follows them.
    ghost comes_to: { Self → List ℕ → Result Self.Value Self.Fault };

    /// Ends the reading.
    fn finish(self) -> Result<Self::Value, Self::Fault>
        ensures ok { IfOk result (λ value. comes_to self [] ≡ Ok value) }
        ensures err { IfErr result (λ fault. (fault ≡ no_memory) ⊎ (comes_to self [] ≡ Err fault)) }
        ensures same { (fault : Self.Fault) → refused self [] ≡ Some fault → result ≡ Err fault };

    /// A piece is taken only where no fault is plain by its end, and refused with the first one that is, or for want of
    /// memory; and the reader then stands where its bytes have led.
    ghost pieces: { (old new : Self) (piece : List ℕ) (answer : Result (Unit {0}) Self.Fault)
        → Self.feed_gives old piece answer new → TakesPiece refused comes_to no_memory old piece answer new };

    /// A fault that is plain stays the first one, whatever follows.
    ghost lasts: { (reader : Self) (bytes more : List ℕ) (fault : Self.Fault) → refused reader bytes ≡ Some fault
        → StandsAt refused comes_to reader (bytes ++ more) fault };
}
