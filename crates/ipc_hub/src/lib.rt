//! The bytes of connections: requests are read from them, in whatever pieces they come, and replies are
//! written to them.
//!
//! Where a rule stands (definition, code, proof):
//!
//! - What a connection does with a request or a fault: `specs/Hub.antt` (`event_of`, `serve`, `break_off`),
//!   `src/serving.rt`; its proofs: `proofs/Kept.antt`, `proofs/Receiving.antt`, `proofs/Answering.antt`,
//!   `proofs/Ending.antt`
//! - Where replies go: `deliver_all` in `specs/Hub.antt`, `src/connections.rt`, `proofs/Deliveries.antt`,
//!   `proofs/Keeping.antt`
//! - A call of the hub: `specs/Clients.antt`, `src/hub.rt`, `proofs/Changes.antt`, `proofs/Coming.antt`
//! - When frames are seen, and what a failed disk leaves: `shown` and `fail` in `specs/Clients.antt`, `src/hub.rt`,
//!   `src/outbox.rt`, `proofs/Committing.antt`
//! - How many replies may wait: `ahead` in `specs/View.antt`, `AHEAD` in `src/connection.rt`
//! - What clients may count on over crashes: `specs/Lives.antt`, `src/laws.rt`
//!
//! What the clauses say:
//!
//! Each call of the hub is the call of the hub of the definitions (`specs/Clients.antt`). A caller sees the code's hub
//! as a value of `specs/View.antt`: its limits, the state of its machine, and its connections by number, which rise,
//! beside its store (`StoredHub`). `HubMatches` (`specs/Relations/Matches.antt`) says that this value matches a hub of
//! the definitions at some number of confirmed events:
//!
//! - the limits and the state of the machine are the same;
//! - the numbers of the connections are the same, and each has the same process, if it has one;
//! - each has the same bytes that are no whole frame yet;
//! - the server has ended the same connections;
//! - the bytes of the frames that are kept are the same, and the client may see those up to the first that is not
//!   confirmed.
//!
//! `StoredMatches` says it of a hub over its store: the confirmed events are those that the store has confirmed, and
//! the store has counted every event of the definitions' hub.
//!
//! `Simulates` says of a call: whatever hub of the definitions the code's hub matched before, after the call it matches
//! the one that the definitions' call makes of it. `Serves` says more of a call that gives events: the events that the
//! definitions' call accepts are those that the store takes, and a crash at any moment of it leaves what `Takes` says
//! (see ipc_store).
//!
//! - `Hub::new` matches the hub without connections, over the state and the events of its store (`matches`), and has no
//!   connections (`empty`). It has no condition and takes no memory.
//! - `connect` (`ok`) and `consume` (`ok`) simulate the definitions' calls and leave the store as it is (`store`).
//!   `hangup` (`ok`) and `tick` (`ok`) serve them. Which numbers are in use is said for itself: `connect` adds its own
//!   (`joins`), `hangup` frees its own (`leaves`, `stays`), and no other call changes them, also one that fails
//!   (`numbers`).
//! - `feed` (`ok`): time passes, and then the bytes that it took were taken in. These and the bytes kept are a stream;
//!   each request that they complete is an event; after a fault an EPROTO frame is the last of the connection, and
//!   later bytes are dropped. Every reply of every event, of a tick and an exit too, is a frame of the connection that
//!   has its process, in order; a HELLO that gets no process is answered on the connection that said it. One thing is
//!   left open: which requests were refused for memory. Each of these has an ENOMEM frame in its place and is no event,
//!   and only a HELLO that gets a process, and a call of which `needs` of its crate says that it may need memory, can
//!   be among them.
//! - Several frames may wait on a connection. `push` wants room for its reply, and that is proved at each of its calls:
//!   `feed` takes requests while what the process is owed, the longest reply, and the last frames of a connection after
//!   it, have space after the frames that are kept, and a longest record has room among those that wait in the store.
//!   So no reply is dropped: `ok` has a frame for each request.
//! - If no frame of the connection is kept when `feed` returns, it has taken the whole piece (`whole`). If it kept at
//!   most 4096 bytes of frames before, it takes at least one byte (`starts`): beside these there is always room for the
//!   longest reply and for all that its process is owed. If the server has ended the connection, it takes and drops the
//!   whole piece (`dropped`). It takes no more than the piece (`within`).
//! - `release` makes all events last that wait, and then lets their frames be seen: the hub still matches (`ok`), with
//!   all of them confirmed (`confirmed`, `waiting`, `all`). With nothing waiting it leaves the store as it is
//!   (`nothing`). `save` promises the same by a checkpoint of the state, also if nothing waits: the store has gone on
//!   to the next epoch, and its journal is empty (`turned`). `output` is the bytes of the frames up to the first that
//!   is not confirmed, less those consumed (`shown`). `ended` says whether the server has ended the connection
//!   (`server`). The same two as values of the code's hub: `bytes`, `ended`; `consume` takes off the front of the
//!   output (`output`).
//! - `connections` lists the connections (`rows`) in rising number (`rising`). `is_silent` is true exactly if the
//!   connection at a place has the number and nothing to say: no byte to see, and no end.
//! - `feed`, `hangup` and `tick` begin with a release if their records may have no room in the batch of the store: a
//!   tick's, with it an exit's, or with it that of a longest request. So only a release can fail, and a call that fails
//!   then has done nothing else. A feed may fail within, too: if the store has no room for a longest record and the
//!   connection keeps no frame, it releases and goes on. If that fails, some bytes were fed before (`HaltsFeed`,
//!   `FailsWithin`); the law over lives tells it as two calls, a feed of these bytes and the failure. If a release
//!   fails by `Device`, or by `Stopped` at the end of the epochs (`refused`; `Halts`, `Fails`), the hub matches what
//!   the definitions make of a failed disk: the frames that were confirmed stay, the others go, an EIO frame is the
//!   last of each connection, and each has ended. The store has stopped then, nothing more was confirmed, and a crash
//!   leaves what `Takes` says. `Device` comes only if the disk counted one failure more; `Stopped` of a hub that goes
//!   on comes only if its epochs are at their end. `save` fails in the same way. An honest disk stays one over each of
//!   these calls (`honest`). A call that is Ok leaves a store that has not stopped, with no failure of the disk
//!   counted, and says how many numbers (epochs and events) it has used at most: one for a release or a save, two for a
//!   tick, three for a hang-up, three and one for each byte that it took for a feed (`spends`). So if a hub has not
//!   stopped and has numbers left, each of these is Ok unless the disk has failed or no connection has the number.
//! - A hub whose store has stopped, or has not three events left to count, answers `Stopped` before anything else
//!   (`stopped`), and nothing has changed. Else `feed` and `hangup` are `Unknown` exactly if no connection has the
//!   number (`unknown`, `refused`), and `connect` is `InUse` exactly if one has it (`in_use`). After these nothing has
//!   changed (`refused`, `err`).
//! - `store` shows the store. `received` and `sent` count the bytes that came and went; they have no clause, and are
//!   tested (`metrics.py` of `tests/`).
//! - `close` hands the store back as it is (`store`). Its machine is the one that the connections had (`limits`,
//!   `state`).
//! - **Over lives and crashes**: the machine has one history, over any number of lives, each of which may end at any
//!   moment of any call or open; the event of each frame that a client could see is in it from then on, and the frame
//!   is for the process of that client, or a refusal (`no_answer_is_taken_back`, `specs/Lives.antt`). The law over
//!   lives (docs/PROMISES.md) unfolds it.
//! - Laws:
//!   - bytes that come in two pieces are taken in as at once (`bytes_come_in_any_pieces`), and so are those that are
//!     fed in two pieces at one moment, but for a tick that is counted (`feeds_come_in_any_pieces`).
//!   - after a release a client may see all its frames (`released_frames_are_all_shown`).
//!   - a call of the definitions takes no event back, and keeps the state that after the events and each frame of each
//!     client an answer (`calls_keep_answers`).
//!
//! The type's invariant, `HubInvariant` (`specs/Relations/Invariant.antt`), holds before and after each call while the
//! store goes on: numbers rise (this also after it has stopped), each process of a connection is connected and no other
//! connection has it, what is kept of a request is no whole frame, and each connection has room for what its process is
//! owed and, after it, for the frames that may still be its last, EPROTO and EIO. Below the public calls: `Connections`
//! is a table of connections, which finds the one that has a number by halving, puts one in and takes one out, and
//! whose `deliver` puts the replies of an event into the connections of their processes (`connections.rt`); `come_to`
//! says what a request comes to (`serving.rt`); a connection is bytes alone (`connection.rt`).
#![tactic(auto)]

mod connection;
mod connections;
mod fault;
mod hub;
mod laws;
mod outbox;
mod serving;

pub use connection::Connection;
pub use fault::{ConnectError, ServeError};
pub use hub::Hub;
pub use laws::{
    bytes_come_in_any_pieces, calls_keep_answers, feeds_come_in_any_pieces,
    no_answer_is_taken_back, released_frames_are_all_shown,
};
