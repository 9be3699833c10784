/// An operation and a state at which a type isn't numeric: the operation is illegal in the state, and
/// legal in a lower and in a higher one; or it is legal in the state, and moves it otherwise than it
/// moves the least state in which it is legal.
#[derive(Clone, Copy, Debug, PartialEq, Eq)]
pub struct NumericFault {
    pub operation: u8,
    pub state: u16,
}
