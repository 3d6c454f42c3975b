//! The server on a Unix socket: what its clients write is fed to a hub, and what they may see is
//! written to them.
//!
//! Where a rule stands (definition, code, proof):
//!
//! - A turn: `src/server.rt`, `src/rounds.rt`; at what moments, and what ends them: `src/serve.rt`, `specs/Served.antt`
//! - How long it waits: `src/rest.rt`, `specs/Rest.antt`
//! - What is read of a client and written to it: `src/client.rt`, `specs/Streams.antt`
//! - What a turn promises: `specs/Runs.antt`, `specs/Acts.antt`, `specs/View.antt`, `specs/Rounds.antt`,
//!   `specs/Turns.antt`, `src/laws.rt`
//!
//! What the clauses say:
//!
//! A caller sees a server as its hub (`StoredHub`), whether connections may wait, and its clients by number: of each
//! the number of its connection, the bytes that were read and not taken, whether a read may give something, how many
//! reads were made in a turn, whether it is over, and what became of it when it was last written to: its socket is
//! full, has failed, how many writes were made (`specs/View.antt`). `Server::new` wants a hub without connections;
//! where it is refused it hands back the hub and the listening socket as they came (`err`, `listener`). What a server's
//! steps come to is said of every hub of the definitions that it matches (`specs/Runs.antt`):
//!
//! - **A turn** that is Ok has let time pass up to its moment, and then made some calls of the hub at that moment, one
//!   after another: connections, bytes that were fed, releases, hang-ups, bytes that were sent (`specs/Acts.antt`).
//!   Each is named, with the hub before and after it (`Steps`): a client was sent nothing but the first bytes of what
//!   the hub showed for it just then. The hub matches what these come to by the definitions, and its store has taken
//!   the events that they accept (`Server::turn` `ok`, `RunsRound`). No event waits afterwards (`settled`).
//! - **A turn that is broken off** by the disk or at the end of the epochs has made some calls at its moment, the next
//!   one was refused as the hub says, and then clients were sent what they may see, and nothing else (`err`,
//!   `BreaksOff`). If the sockets cannot be waited for the hub is as before. If the hub had stopped before the turn,
//!   the answer is `Stopped` and the hub is as before (`stopped`).
//! - **The clients of a server** after every turn, also one that was broken off: each has its connection in the hub,
//!   under its own number, and no other connection is there (`connected`, `HaveConnections`). The connection of a
//!   client that was there before the turn and is there after it was neither made nor hung up in it, so it has its
//!   process still (`spares`).
//! - **Of each client that a turn leaves**, nothing may be read, or a piece of what was read is kept, which the next
//!   turn feeds first, or its 16 reads are used (`read`, `WasRead`). That a read would block is noted only after one
//!   was made (`Client::take_in` `tried`).
//! - **None of them is gone** (`parted`, `HasParted`, `specs/Rounds.antt`): none is over, and each that the server has
//!   ended had something to see when all clients had been written to. From there the turn has hung up connections,
//!   released, and taken off the outputs what it wrote, in this order, and nothing else. What fails or is used up in
//!   that last writing is let go by the next turn.
//! - **Each of them was written to** (`written`, `WasWritten`): if its socket is not full and has not failed, then
//!   nothing is left that it may see, or its 16 writes are used; it is noted as full only after a write. So what a turn
//!   makes last it also takes off the outputs: a turn that writes first and releases after that is refused. After a
//!   fault of the disk the same holds (`told`) of what tells each client of the fault.
//! - **Sockets and connections go together.** In the round of a turn each connection is fed what its own client's
//!   socket gave, in order, each byte once, and nothing else; and each socket is written what its own client was sent,
//!   and nothing else (`specs/Streams.antt`, the clause `streams` of `serve_all`, which is all that a turn does after
//!   new connections have come). It is said of every reader and writer that tell their bytes. The system's sockets tell
//!   none, so it is no clause of `Server::turn`, whose code is this function at their type. That a turn feeds nothing
//!   before or after this function, no clause says.
//! - **A client whose socket has failed before the turn is let go by it** (`failed`).
//! - **As many turns as a server is asked for** (`Server::serve`, `specs/Served.antt`): if it is Ok, so many turns went
//!   on, one after another, each as its clause says, at moments that do not fall, also if the clock does; after each of
//!   them no event waits (`ok`). If not, fewer went on, and the fault has broken off the next one (`err`).
//! - **Turns on demand** (`Server::serve_on_demand`): its clauses are those of `serve`. How long a wait
//!   before a turn may be is exactly the definition's (`Server::longest_wait`, `specs/Rest.antt`): none if and only if
//!   there is work already (`IsBusy`: a turn has left connections that may wait, or has something to do with a client,
//!   as to feed a piece of it; or the server goes on no more), and else until the earliest deadline of the calls that
//!   wait, and at most a second where one has a deadline, a tenth of a second while an accept has failed, and a minute.
//!   No wait before a turn is made that may last past that deadline (`rest_for` `due`), and none while there is work
//!   (`idle`). Which deadline is the earliest is exact: `next_deadline` of the calls that wait, of the engine
//!   (`Engine::next_deadline`) and of the hub (`Hub::next_deadline`). That the system waits as long as it is told, and
//!   tells of its sockets, no clause can say; that a server waits at all where it may, no clause says: both are tested
//!   (`on_time.py` of `tests/`).
//! - **An `Observer`** is shown the hub after each turn, and while a server waits on demand as often as it asks for
//!   (`src/observer.rt`). It can change nothing, and makes no wait longer than `longest_wait` has it.
//! - **Every turn ends**, as every function.
//! - **What is read**: the bytes that a client's socket gives are fed to its connection in order, each once, in some
//!   pieces; what was read and not taken comes first (`Client::take_in` `hears`, `FeedsInput`), for every reader that
//!   tells its bytes.
//! - **What is written** to a socket is the first bytes of what the client of its connection can see, in order, each
//!   once: they are consumed, and the others can be seen still (`Client::put_out` `tells`, `WritesOutput`), for every
//!   writer that tells what it holds.
//! - **Over lives and crashes**: any number of turns, at moments that do not fall, and the first calls of one more are
//!   calls on the hub, one after another, as the law over lives (docs/PROMISES.md) has them
//!   (`turns_are_calls_on_a_hub`, `specs/Turns.antt`). So the law holds of a life that ends within any call of a turn,
//!   and of the frames that its clients were sent: what was sent to a client before that call is not taken back, also
//!   if it was sent in the same turn. A turn that went on, or was broken off, is such calls by its own clauses, and
//!   adds the frames that were in an output from which a client was sent something (`turn`, `broken`, `GoesOn`), and so
//!   does what `serve` has done (`served`, `stops_short`); each byte that a client is sent is of one of these frames,
//!   which was seen on its own connection (`sent`).
//!
//! That a turn takes the connections that have come, that it keeps one that is not gone, and that what a read or a
//! write has said is noted as it was said, no clause says: that is tested. What is said of a client by itself is exact:
//! when a turn has something to do with it (`has_work`), and when its connection is to be hung up (`note_end`). The
//! system's sockets tell no bytes, so of these the clauses of reads and writes say nothing; `put_out` and `take_in` are
//! the only functions that touch them.
#![tactic(auto)]

mod client;
mod fault;
mod laws;
mod observer;
mod rest;
mod rounds;
mod serve;
mod server;

pub use fault::{ServeFault, ServerError};
pub use laws::turns_are_calls_on_a_hub;
pub use observer::{Observer, Unobserved};
pub use serve::now;
pub use server::{Server, Unserved};
