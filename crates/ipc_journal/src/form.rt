//! The two forms of a journal.

ghost use Rattle.std.specs.Prelude.{◌≡◌};
ghost use Rattle.ipc_journal.specs.Journal.{head, sectors_in};
ghost use Rattle.ipc_journal.specs.Tagged.{pieces_for};

use ipc_disk::sectors_for_len;

/// How the sectors of a journal are written.
#[derive(Clone, Copy, Debug, PartialEq, Eq)]
pub enum Form {
    /// A header, and after it the batches that it counts: an append is durable after two syncs.
    Headed,
    /// No header. Each sector has a tag, which says of which epoch and batch it is and where in the batch: an append is
    /// durable after one sync.
    Tagged,
}

impl Form {
    // The sectors before the first batch.
    pub(crate) fn head(self) -> u32
        ensures { result ≡ head self }
    {
        match self {
            Form::Headed => 1,
            Form::Tagged => 0,
        }
    }

    // The sectors that a batch of so many bytes takes.
    pub(crate) fn sectors_in(self, len: usize) -> usize
        ensures { result ≡ sectors_in self len }
    {
        match self {
            Form::Headed => sectors_for_len(len),
            Form::Tagged => pieces_for_len(len),
        }
    }
}

// The sectors that so many bytes take, 496 in each.
pub(crate) fn pieces_for_len(len: usize) -> usize
    ensures { result ≡ pieces_for len }
{
    len.div_ceil(496)
}
