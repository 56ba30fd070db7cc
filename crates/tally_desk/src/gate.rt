//! What happens before each call.

/// Comes before each call is made.
///
/// `turn` counts the calls of one feed or of one asker from 0.
pub trait Gate {
    fn before(&self, caller: u32, turn: u32);
}

/// A gate that is always open.
#[derive(Clone, Copy, Debug)]
pub struct OpenGate;

impl Gate for OpenGate {
    fn before(&self, _caller: u32, _turn: u32) {}
}
