// Opening a sender.
ghost use Rattle.std.specs.Prelude.{◌≡◌};
ghost use Rattle.sender.specs.Opening as Opening;

use crate::Sender;
use settings::{Progress, Settings};

// Nothing offered, and nothing sent.
pub fn fresh(settings: Settings) -> Sender
    ensures { result ≡ Opening.fresh_of settings }
{
    Sender {
        settings,
        progress: Progress {
            next: settings.sequence,
            ..Progress::default()
        },
        ..Sender::default()
    }
}
