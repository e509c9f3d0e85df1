// Bytes, numbers and events written into a lent buffer. A byte is written only where there is room
// for it, and the place after it is answered all the same: lent no room, a writer measures.
#![tactic(auto)]

pub mod bytes; // bytes.rt: bytes, runs of bytes and numbers of two to four bytes
mod number; // number.rt: variable-length numbers
pub mod head; // head.rt: an event to its data
