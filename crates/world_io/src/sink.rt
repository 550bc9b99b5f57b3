//! A sink of bytes, which may take a part of what is offered.
ghost use Rattle.std.specs.Prelude.{◌≡◌, ◌≤◌, ◌<◌, ℕ, length};
ghost use Rattle.world_io.specs.Outside.{SinkState};
ghost use Rattle.world_io.specs.Puts.{PutSays, Fits};

/// The answer to a put.
#[derive(Clone, Copy, Debug, PartialEq, Eq)]
pub enum Put {
    /// So many bytes from the front of the piece were taken.
    Took(usize),
    /// None was taken, and the sink counted it.
    Failed,
}

/// A place where bytes go.
pub trait Sink {
    /// What the sink took, which of its puts fail, how much it surely takes, and how often it failed.
    ghost state: { Self → SinkState };

    /// Takes at least one byte from the front of the piece, or fails. It fails only where the count of
    /// faults rose, and where its number is listed it does. A piece within the sure room is taken
    /// whole. A put of no bytes does nothing, and has no number.
    fn put(&mut self, bytes: &[u8]) -> Put
        ensures some { 0 < length bytes.now → PutSays (state self.old) bytes.now result (state self.new) }
        ensures none { length bytes.now ≡ 0 → (result ≡ Put.Took 0) × (state self.new ≡ state self.old) }
        ensures sure { Fits (state self.old).room (length bytes.now) → result ≡ Put.Took (length bytes.now) };
}
