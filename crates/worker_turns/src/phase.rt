use serial_order::Refusal;

/// Where a worker is in the job that it does.
#[derive(Clone, Copy)]
pub enum Phase {
    /// Before a try.
    Idle,
    /// Transaction t began, and this many of its calls had a reply.
    Going {
        t: u32,
        done: usize,
    },
    /// The next call had no reply, and t is to be aborted.
    Breaking {
        t: u32,
        done: usize,
    },
    /// The next call was refused, and t is to be aborted.
    Refusing {
        t: u32,
        done: usize,
        refusal: Refusal,
    },
}
