//! An outside round another one, so that a server over objects in memory can be played: its
//! standard input comes only once each link was served, and links may meet at a call of recv. Each
//! wait ends by itself. What the objects tell is what those inside tell.

mod board;
mod clock;
mod held;
mod link;
mod listener;
mod source;
mod watch;

pub use board::Plan;
pub use clock::HeldClock;
pub use held::HeldOutside;
pub use link::HeldLink;
pub use listener::HeldListener;
pub use source::HeldSource;
