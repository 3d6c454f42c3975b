//! Which message of a queue a receive takes.

ghost use Rattle.std.specs.Prelude.{◌≡◌, map};
ghost use Rattle.posix_mq.specs.Queue.{plain, next_to_receive};

use crate::message::Message;
use ipc_arrivals::Arrivals;

/// The position of the first message of the greatest priority, if there is a message.
pub(crate) fn first_of_greatest(messages: &Arrivals<Message>) -> Option<usize>
    ensures { result ≡ next_to_receive (map plain messages.now.items) }
{
    let greatest = messages.greatest()?;
    messages.first_of(greatest)
}
