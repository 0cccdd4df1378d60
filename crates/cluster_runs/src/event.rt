use interleavings::Event;
use requests::Request;

/// What happens next when controllers use the interleaved store. A controller is named by its number, from 0, and sends
/// its requests as a caller: at first the one of its number, and after a crash the lowest caller that was not used.
#[derive(Drop)]
pub enum ClusterEvent {
    /// The controller calls its next request, if its caller is idle.
    Next(usize),
    /// Another client calls, as a caller that no controller is or was.
    Outside(u64, Request),
    /// A step of the store, of a caller that was used. It is no `Call`, and no `Crash` of a controller's present
    /// caller. The reply of a `Reply` goes to the controller whose caller it is.
    Step(Event),
    /// The controller forgets its round, its caller crashes, and it continues as another caller.
    Crash(usize),
}
