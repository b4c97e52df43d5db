ghost use Rattle.std.specs.Prelude.{◌≡◌, ◌^◌, ◌<◌, List, length};
ghost use Rattle.syntax.specs.declared.event.Event.{Event};
ghost use Rattle.source.specs.Meaning.{Close, next_of, rest_of};

use crate::close::Fault;
use syntax::Event;

// A source means the events still to come, fewer than 2^64, and then how it closes.
// `look` and `take` answer the first event, or the close where none is left: nothing at the end, or a fault.
// `take` also drops that event.
// So a source that has closed stays closed, and answers the same at every call.
pub trait EventSource {
    ghost events: { Self → List Event };

    ghost close: { Self → Close };

    fn look(&self) -> Result<Option<Event>, Fault>
        ensures value { result ≡ next_of (events self.now) (close self.now) }
        ensures bound { length (events self.now) < 2 ^ 64 };

    fn take(&mut self) -> Result<Option<Event>, Fault>
        ensures value { result ≡ next_of (events self.old) (close self.old) }
        ensures rest { events self.new ≡ rest_of (events self.old) }
        ensures same { close self.new ≡ close self.old };
}
