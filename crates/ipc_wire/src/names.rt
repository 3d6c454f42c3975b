//! What requests are called.

ghost use Rattle.std.specs.Prelude.{◌≡◌, is_some};
ghost use Rattle.ipc_wire.specs.Table.{row_of};

use crate::spelling::{
    ATTACHED_READ, ATTACHED_WRITE, CLOSE, FTRUNCATE, HELLO, INTERRUPT, MQ_GETATTR, MQ_NOTIFY,
    MQ_OPEN, MQ_RECEIVE, MQ_SEND, MQ_SETATTR, MQ_UNLINK, MSGCTL_RMID, MSGCTL_SET, MSGCTL_STAT,
    MSGGET, MSGRCV, MSGSND, SEM_GETVALUE, SEM_OPEN, SEM_POST, SEM_TRYWAIT, SEM_UNLINK, SEM_WAIT,
    SEMCTL_GET_ALL, SEMCTL_GET_NCNT, SEMCTL_GET_PID, SEMCTL_GET_VAL, SEMCTL_GET_ZCNT, SEMCTL_RMID,
    SEMCTL_SET, SEMCTL_SET_ALL, SEMCTL_SET_VAL, SEMCTL_STAT, SEMGET, SEMOP, SHM_OPEN, SHM_READ,
    SHM_STAT, SHM_UNLINK, SHM_WRITE, SHMAT, SHMCTL_RMID, SHMCTL_SET, SHMCTL_STAT, SHMDT, SHMGET,
};

/// The name of the request with this opcode, in small letters: that of its call in the manual, and of a command of
/// msgctl(2), semctl(2) or shmctl(2) that too. `None` where no request has the opcode.
#[tactic(auto, unfolding(crate::specs::Table::row_of, crate::specs::Table::row_among))]
pub fn request_name(opcode: u8) -> Option<&'static str>
    ensures { is_some result ≡ is_some (row_of opcode) }
{
    Some(match opcode {
        HELLO => "hello",
        INTERRUPT => "interrupt",
        CLOSE => "close",
        MSGGET => "msgget",
        MSGSND => "msgsnd",
        MSGRCV => "msgrcv",
        MSGCTL_STAT => "msgctl_stat",
        MSGCTL_SET => "msgctl_set",
        MSGCTL_RMID => "msgctl_rmid",
        SEMGET => "semget",
        SEMOP => "semop",
        SEMCTL_GET_VAL => "semctl_getval",
        SEMCTL_GET_PID => "semctl_getpid",
        SEMCTL_GET_NCNT => "semctl_getncnt",
        SEMCTL_GET_ZCNT => "semctl_getzcnt",
        SEMCTL_SET_VAL => "semctl_setval",
        SEMCTL_GET_ALL => "semctl_getall",
        SEMCTL_SET_ALL => "semctl_setall",
        SEMCTL_STAT => "semctl_stat",
        SEMCTL_SET => "semctl_set",
        SEMCTL_RMID => "semctl_rmid",
        MQ_OPEN => "mq_open",
        MQ_UNLINK => "mq_unlink",
        MQ_SEND => "mq_send",
        MQ_RECEIVE => "mq_receive",
        MQ_NOTIFY => "mq_notify",
        MQ_GETATTR => "mq_getattr",
        MQ_SETATTR => "mq_setattr",
        SEM_OPEN => "sem_open",
        SEM_UNLINK => "sem_unlink",
        SEM_POST => "sem_post",
        SEM_WAIT => "sem_wait",
        SEM_TRYWAIT => "sem_trywait",
        SEM_GETVALUE => "sem_getvalue",
        SHM_OPEN => "shm_open",
        SHM_UNLINK => "shm_unlink",
        FTRUNCATE => "ftruncate",
        SHM_READ => "shm_read",
        SHM_WRITE => "shm_write",
        SHM_STAT => "shm_stat",
        SHMGET => "shmget",
        SHMAT => "shmat",
        SHMDT => "shmdt",
        SHMCTL_STAT => "shmctl_stat",
        SHMCTL_SET => "shmctl_set",
        SHMCTL_RMID => "shmctl_rmid",
        ATTACHED_READ => "attached_read",
        ATTACHED_WRITE => "attached_write",
        _ => return None,
    })
}
