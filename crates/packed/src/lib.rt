// Registers as cells in the bytes that the caller lends: of 6 bits (kind 6), of 4 bits (kind 4), and of 8 (kind 8), which are the bytes themselves.
// A cell is read and stored through the bytes that its bits lie in, and all cells are unpacked one to a byte. Bytes are taken as they are. And
// cells of 32 bits, which an image has.
#![tactic(auto)]

pub mod eight;
pub mod four;
pub mod six;
pub mod words;
