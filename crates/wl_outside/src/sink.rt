//! Where the program puts its lines.
ghost use Rattle.wl_outside.specs.Sink.{Told, Wrote};

/// A save or a write failed.
#[derive(Clone, Copy, Debug, PartialEq, Eq)]
pub struct Failed;

/// A place to which bytes are added at the end. It counts its faults; the count never falls.
pub trait Sink {
    /// The bytes so far, where it tells them, and how often it failed.
    ghost told: { Self → Told };

    /// Puts the bytes behind those that are there, whole.
    ///
    /// # Errors
    /// `Failed` comes only where the count of faults rose. A prefix of the bytes has then been added.
    fn write(&mut self, bytes: &[u8]) -> Result<(), Failed>
        ensures { Wrote result bytes.now (told self.old) (told self.new) };
}
