ghost use Rattle.std.specs.Prelude.{◌≡◌, None};

use crate::close::Fault;
use crate::event_source::EventSource;
use syntax::Event;

// The events of a slice, then the end.
#[derive(Drop)]
pub struct Row<'a> {
    events: &'a [Event],
}

impl<'a> Row<'a> {
    pub fn new(events: &'a [Event]) -> Row<'a>
        ensures { result.events.now ≡ events.now }
    {
        Row { events }
    }
}

impl<'a> EventSource for Row<'a> {
    ghost events = { λ s. s.events.now };

    ghost close = { λ _. None };

    fn look(&self) -> Result<Option<Event>, Fault> {
        Ok(self.events.first().copied())
    }

    fn take(&mut self) -> Result<Option<Event>, Fault> {
        let [first, rest @ ..] = self.events else {
            return Ok(None);
        };
        self.events = rest;
        Ok(Some(*first))
    }
}
