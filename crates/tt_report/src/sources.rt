//! The addresses of the sources of a machine, or of the servers of a master.

ghost use Rattle.std.specs.Prelude.{◌≡◌};

use tt_status::LogEvent;

/// The addresses that lines and the status of a machine name, by the number of the source or of the server.
#[derive(Drop)]
pub struct Addresses {
    texts: Vec<String>,
}

impl Addresses {
    /// These addresses, as the settings have them.
    pub fn new(texts: Vec<String>) -> Addresses
        ensures { result.texts ≡ texts }
    {
        Addresses { texts }
    }

    /// All of them, in their order.
    pub(crate) fn all(&self) -> &[String]
        ensures { result.now ≡ self.now.texts.items }
    {
        self.texts.as_slice()
    }

    /// The address of the source or of the server of which an event tells without its address; empty if there is none.
    pub(crate) fn of(&self, event: LogEvent) -> &str {
        let Some(place) = event.place() else {
            return "";
        };
        match self.texts.get(place as usize) {
            Some(text) => text.as_str(),
            None => "",
        }
    }
}
