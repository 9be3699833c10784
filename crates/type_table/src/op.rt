use crate::name::Name;

/// An operation: a call together with its reply.
#[derive(Clone, Copy, PartialEq, Eq, Hash)]
pub struct Op {
    pub call: Name,
    pub reply: Name,
}
